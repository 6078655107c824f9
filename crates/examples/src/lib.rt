// Worked examples that are proved: one statement over the definitions, on the contract of one call.
#![tactic(auto)]

ghost use Rattle.examples.specs.Starred.{Starred};

use diagram::{BitNode, ColumnNode};
use product::Example;

pub mod product;

// A table of bit nodes, each by its bit, low link and high link. A macro, since a constant may call no function.
macro_rules! bit_nodes {
    ($(($bit:literal, $low:literal, $high:literal)),*) => {
        [$(BitNode { bit: $bit, low: $low, high: $high }),*]
    };
}

// A table of column nodes, each by its column, value, high link and low link.
macro_rules! column_nodes {
    ($(($column:literal, $value:literal, $high:literal, $low:literal)),*) => {
        [$(ColumnNode { column: $column, value: $value, high: $high, low: $low }),*]
    };
}

const BITS: [BitNode; 3] = bit_nodes![(0, 3, 1), (1, 1, 4), (2, 1, 0)];

const COLUMNS: [ColumnNode; 8] = column_nodes![
    (0, 0, 5, 3),
    (0, 1, 5, 4),
    (0, 2, 7, 0),
    (1, 0, 8, 6),
    (1, 1, 8, 0),
    (1, 0, 8, 0),
    (2, 0, 1, 9),
    (2, 1, 1, 0)
];

// The product of the examples; what is proved of it, and of the costs in the examples, is the statement `Starred`.
// Constant time.
pub fn example() -> Example
    ensures { Starred result }
{
    Example {
        counts: [3, 2, 2],
        bits: BITS,
        columns: COLUMNS,
        start: 2,
    }
}
