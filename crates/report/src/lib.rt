// What the programs say, as functions on values.
#![tactic(auto)]

pub mod hexadecimal;
pub mod reply;
pub mod sheetrun;
