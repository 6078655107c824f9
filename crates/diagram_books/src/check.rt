// The check of a table.
ghost use Rattle.std.specs.Prelude.{◌≡◌, IfOk, Result};
ghost use Rattle.fault.specs.Questions.{refusal};
ghost use Rattle.diagram_books.specs.Checks.{AsksTable};
ghost use Rattle.diagram_books.specs.Tables.{table, accepted};
ghost use Rattle.fault.specs.declared.Fault.{Fault};

use crate::forms::Node;
use crate::rule_book::Diagram;
use crate::sized::SizedTable;
use crate::table::Table;
use fault::Fault;

impl<'a, N: Copy> Table<'a, N> {
    // Asks the questions of a table in their order: the rule book of the same table, or the fault of the first question that
    // says no. One step a feature and a record.
    pub fn check<I: Copy>(self) -> Result<Diagram<'a, N, I>, Fault>
    where
        N: Node<I>,
        ensures asked { AsksTable self.entry.source N.form self.entry.counts.now self.entry.records.now self.entry.start (refusal result) }
        ensures held { IfOk result (λ b. table b.counts.now b.records.now b.start ≡ table self.entry.counts.now self.entry.records.now self.entry.start) }
    {
        self.ask_sizes()?;
        let index = N::index(self.counts);
        SizedTable { table: self, index }.ask_body()?;
        Ok(Diagram {
            counts: self.counts,
            records: self.records,
            start: self.start,
            index,
        })
    }

    // The rule book of the same table where all questions say yes, and otherwise one that permits nothing: for whoever goes on
    // with a book in either case. One step a feature and a record.
    pub fn book<I: Copy>(self) -> Diagram<'a, N, I>
    where
        N: Node<I> + 'static,
        ensures { (outcome : Result Unit Fault) × (AsksTable self.entry.source N.form self.entry.counts.now self.entry.records.now self.entry.start (refusal outcome) × (table result.counts.now result.records.now result.start ≡ accepted outcome (table self.entry.counts.now self.entry.records.now self.entry.start))) }
    {
        match self.check() {
            Ok(book) => book,
            Err(_) => Diagram::nothing(),
        }
    }
}
