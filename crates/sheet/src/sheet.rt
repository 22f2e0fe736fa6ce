// A sheet that was read.
use crate::functions::Functions;
use xi::node::Node;
use xi::program::GlobalVariable;

pub mod decode;

// The names are parts of the bytes that the sheet was read from. Nodes name each other by number, and are no boxes: a stop gives the number of its
// node, and a run keeps nodes in lent words.
#[derive(Drop)]
pub struct Sheet<'a> {
    pub names: Vec<&'a [u8]>,
    pub constants: Vec<i64>,
    pub entries: Vec<u16>,
    pub nodes: Vec<Node>,
    pub globals: Vec<GlobalVariable>,
    pub functions: Functions,
    // the offset of the first node
    pub nodes_at: usize,
    // the offset of the first global
    pub globals_at: usize,
    // the offset of the functions' count
    pub functions_at: usize,
}
