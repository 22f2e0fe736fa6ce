// The functions of a sheet, with the lists that hold the parameters and the results of all of them: so a record needs no memory of its own.
use xi::node::Ty;
use xi::program::{Function, Parameter};

mod records;

// A function, and the offset of its record.
#[derive(Clone, Copy)]
pub struct FunctionRecord {
    pub function: Function,
    pub at: usize,
}

#[derive(Drop)]
pub struct Functions {
    pub records: Vec<FunctionRecord>,
    pub parameters: Vec<Parameter>,
    pub results: Vec<Ty>,
}
