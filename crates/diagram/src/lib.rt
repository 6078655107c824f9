// The nodes of the two forms of decision diagram. A link is 0 for false, 1 for true, and r + 2 for record r: a number and
// no pointer, since the nodes stand in a lent table as they were read, and nothing is allocated.
#![tactic(auto)]

// A node of a bit diagram: which bit it tests, and where it leads when that is 0 or 1.
#[derive(Clone, Copy, Debug, PartialEq)]
pub struct BitNode {
    pub bit: u32,
    pub low: u32,
    pub high: u32,
}

// A node of a column diagram: which value of which column (feature) it tests, where it leads when the feature has that
// value, and the node that tests the column's next value.
#[derive(Clone, Copy, Debug, PartialEq)]
pub struct ColumnNode {
    pub column: u32,
    pub value: u32,
    pub high: u32,
    pub low: u32,
}
