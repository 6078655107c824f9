// The product of the examples.
use diagram::{BitNode, ColumnNode};

// A small product as a bit table and as a column table: three sizes, two finishes, and a code card or none. All goes
// together but size 2 with finish 1. Both tables have the same start link.
#[derive(Clone, Copy)]
pub struct Example {
    pub counts: [u32; 3],
    pub bits: [BitNode; 3],
    pub columns: [ColumnNode; 8],
    pub start: u32,
}
