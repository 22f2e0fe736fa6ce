// The records of a sheet beside its nodes.
use crate::node::{Run, Ty};

// A global variable, with the first value that the sheet gives it, if any.
#[derive(Clone, Copy)]
pub struct GlobalVariable {
    pub name: u16,
    pub ty: Ty,
    pub first: Option<i64>,
}

#[derive(Clone, Copy)]
pub struct Parameter {
    pub name: u16,
    pub ty: Ty,
}

// A function: its parameters and results are runs in the lists of all parameters and all results, its body is a node.
#[derive(Clone, Copy)]
pub struct Function {
    pub name: u16,
    pub parameters: Run,
    pub results: Run,
    pub body: u16,
}
