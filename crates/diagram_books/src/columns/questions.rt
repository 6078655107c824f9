// What is asked of a record of a column diagram, and how a walk steps.
ghost use Rattle.std.specs.Prelude.{◌+◌, ⊤, length, Decides};
ghost use Rattle.node.specs.Columns.{Reads, column_form, column_step, LeadsTo, HighAllowed, LowAllowed};
ghost use Rattle.diagram_books.specs.ColumnBooks.{column_well_once, column_false_starts, column_lawful, no_index_once};

use crate::columns::{ColumnDiagram, ColumnTable};
use crate::forms::Node;
use crate::links::Link;
use crate::sized::SizedTable;
use diagram::ColumnNode;

// Whether a link leads to a record of the column. Constant time.
fn leads_to(records: &[ColumnNode], column: usize, link: usize) -> bool
    ensures { Decides result (LeadsTo records.now column link) }
{
    match Link::of(link) {
        Link::False | Link::True => false,
        Link::Record(r) => records
            .get(r)
            .is_some_and(|node| node.column as usize == column),
    }
}

// Whether high leads to a record of the next column, or to 1 in the last one. Constant time.
fn high_allowed(table: &ColumnTable<'_>, node: &ColumnNode) -> bool
    ensures { Decides result (HighAllowed table.now.counts.now table.now.records.now node.now) }
{
    let next = node.column as usize + 1;
    if next < table.counts.len() {
        leads_to(table.records, next, node.high as usize)
    } else {
        matches!(Link::of(node.high as usize), Link::True)
    }
}

// Whether low is 0, or leads to a record of the same column with a greater value. Constant time.
fn low_allowed(table: &ColumnTable<'_>, node: &ColumnNode) -> bool
    ensures { Decides result (LowAllowed table.now.records.now node.now) }
{
    match Link::of(node.low as usize) {
        Link::False => true,
        Link::True => false,
        Link::Record(r) => table.records.get(r).is_some_and(|next| next.column == node.column
            && node.value < next.value),
    }
}

impl Node<()> for ColumnNode {
    ghost form = { column_form };

    ghost indexed = { λ _ _. ⊤ };

    ghost step = { column_step };

    ghost permits = { λ ds rs start. Reads rs start };

    ghost well_once = { column_well_once };

    ghost indexed_once = { no_index_once };

    ghost false_starts = { column_false_starts };

    ghost lawful = { column_lawful };

    fn index(_counts: &[u32]) {}

    fn exists(&self, sized: &SizedTable<'_, ColumnNode, ()>) -> bool {
        let count = sized.table.counts.get(self.column as usize);
        count.is_some_and(|count| self.value < *count)
    }

    fn linked(&self, table: &ColumnTable<'_>) -> bool {
        high_allowed(table, self) && low_allowed(table, self)
    }

    fn starts(table: &ColumnTable<'_>) -> bool {
        let start = table.start as usize;
        match Link::of(start) {
            Link::False => true,
            Link::True | Link::Record(_) => leads_to(table.records, 0, start),
        }
    }

    fn step(
        diagram: &ColumnDiagram<'_>,
        feature: usize,
        place: usize,
        value: usize,
    ) -> Option<usize> {
        let records = diagram.records;
        if !leads_to(records, feature, place) {
            return None;
        }
        let mut link = place;
        loop {
            let Link::Record(r) = Link::of(link) else {
                break None;
            };
            let record = records[r];
            if record.value as usize == value {
                break Some(record.high as usize);
            }
            link = record.low as usize;
        }
    }
}
