// The column diagram: for each column (feature) chains of records, each of which tests one value of the column.
use crate::rule_book::Diagram;
use crate::table::Table;
use diagram::ColumnNode;

mod questions;

// A column diagram as it is handed over, unchecked.
pub type ColumnTable<'a> = Table<'a, ColumnNode>;

// The rule book of a column table. It needs no index.
pub type ColumnDiagram<'a> = Diagram<'a, ColumnNode, ()>;
