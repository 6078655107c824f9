// Texts that go line by line: a line ends with byte 10, and its fields are one space apart.
#![tactic(auto)]

mod fields;
pub mod line;
pub mod reader;
