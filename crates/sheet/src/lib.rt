// Reads a syntax sheet: from bytes to its parts, or to the first rule of reading that it breaks.
#![tactic(auto)]

pub mod functions;
mod globals;
mod item;
mod names;
mod nodes;
mod part;
mod reader;
pub mod refusal;
pub mod sheet;
mod span;
