// The memory of a machine: cells and stacks of words, both lent.
#![tactic(auto)]

pub mod cell;
pub mod heap;
pub mod stack;
