// The language Xi as a sheet holds it: nodes, types, records, and the rules and stops by number.
#![tactic(auto)]

pub mod node;
pub mod program;
pub mod rule;
pub mod stop;
