// The questions on the records and the start, of a table whose sizes are allowed.
ghost use Rattle.std.specs.Prelude.{◌≡◌, ◌<◌, ◌≤◌, length, slice_index_or};
ghost use Rattle.fault.specs.Questions.{Accepts, refusal};
ghost use Rattle.diagram_books.specs.Checks.{line_in, record_line, AsksRecord, AsksRecords, AsksBody};

use crate::forms::Node;
use crate::table::Table;
use fault::Fault;

// A table with at most 24 features and 2,046 records, and the index of its value counts.
#[derive(Drop)]
pub struct SizedTable<'a, N: Node<I>, I: Copy> {
    pub(crate) table: Table<'a, N>,
    pub(crate) index: I,
    ghost few_features: { length table.counts.now ≤ 24 },
    ghost few_records: { length table.records.now ≤ 2046 },
    ghost known: { N.indexed table.counts.now index } by { N.indexed_once table.counts.now index },
}

impl<'a, N: Node<I>, I: Copy> SizedTable<'a, N, I> {
    // The line of record i. Constant time.
    fn line_of(&self, i: usize) -> usize
        requires { i < length self.now.table.records.now }
        ensures { result ≡ line_in self.now.table.source (record_line self.now.table.counts.now i) }
    {
        self.table.source.line(4 + self.table.counts.len() + i)
    }

    // Does what record i tests exist, and are both its links allowed? Constant time.
    fn ask_record(&self, i: usize, node: &N) -> Result<(), Fault>
        requires within { i < length self.now.table.records.now }
        requires same { node.now ≡ slice_index_or self.now.table.records.now i N.form.blank }
        ensures { AsksRecord self.now.table.source N.form self.now.table.counts.now self.now.table.records.now i Accepts (refusal result) }
    {
        if !node.exists(self) {
            let line = self.line_of(i);
            return Err(Fault::NoSuchTest { record: i, line });
        }
        if !node.linked(&self.table) {
            let line = self.line_of(i);
            return Err(Fault::BadLink { record: i, line });
        }
        Ok(())
    }

    // Is each record so, from first to last? One step a record.
    fn ask_records(&self) -> Result<(), Fault>
        ensures { AsksRecords self.now.table.source N.form self.now.table.counts.now self.now.table.records.now Accepts (refusal result) }
    {
        for (i, node) in self.table.records.iter().enumerate() {
            self.ask_record(i, node)?;
        }
        Ok(())
    }

    // Are the records so, and is the start allowed? One step a record.
    pub(crate) fn ask_body(&self) -> Result<(), Fault>
        ensures { AsksBody self.now.table.source N.form self.now.table.counts.now self.now.table.records.now self.now.table.start Accepts (refusal result) }
    {
        self.ask_records()?;
        let Table {
            counts,
            records,
            source,
            ..
        } = self.table;
        if !N::starts(&self.table) {
            return Err(Fault::BadStart {
                line: source.line(5 + counts.len() + records.len()),
            });
        }
        Ok(())
    }
}
