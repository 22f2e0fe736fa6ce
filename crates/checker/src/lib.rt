// Checks a syntax sheet: from bytes to a sheet that obeys every rule, or to the first rule that it breaks.
#![tactic(auto)]

mod bodies;
pub mod checked;
mod claims;
mod declarations;
mod ends;
mod expressions;
mod library;
mod main_function;
mod mark;
mod named;
mod names;
mod node_at;
mod operators;
mod place;
mod read_sheet;
mod scope;
mod statements;
mod tree;
mod trees;
mod wanted;
