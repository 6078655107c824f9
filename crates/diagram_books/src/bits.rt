// The bit diagram: each record tests one bit of the values, which are numbered through all features.
use crate::rule_book::Diagram;
use crate::table::Table;
use diagram::BitNode;

mod follow;
mod questions;
pub mod widths;

// A bit diagram as it is handed over, unchecked.
pub type BitTable<'a> = Table<'a, BitNode>;

// The rule book of a bit table. Its index is the number of the first bit of each feature, with the number of all bits behind
// the last: an array of fixed size beside the counts, since there is no heap and a step has to find its bits in constant time.
pub type BitDiagram<'a> = Diagram<'a, BitNode, [usize; 25]>;
