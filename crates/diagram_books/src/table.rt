// What a maker hands over, and the questions on its sizes.
ghost use Rattle.std.specs.Prelude.{◌≡◌, ◌≤◌, length};
ghost use Rattle.fault.specs.Questions.{Accepts, refusal};
ghost use Rattle.diagram_books.specs.Checks.{AsksFeatures, AsksSizes};

use crate::source::Source;
use fault::Fault;

// A diagram as it is handed over, unchecked: how many values each feature has, the records, and the start link.
#[derive(Clone, Copy)]
pub struct Table<'a, N> {
    pub counts: &'a [u32],
    pub records: &'a [N],
    pub start: u32,
    pub source: Source,
}

impl<'a, N> Table<'a, N> {
    // The table of these counts and records, with this start link, which came from there. Constant time.
    pub fn new(counts: &'a [u32], records: &'a [N], start: u32, source: Source) -> Table<'a, N>
        ensures counts { result.counts.now ≡ counts.now }
        ensures records { result.records.now ≡ records.now }
        ensures start { result.start ≡ start }
        ensures source { result.source ≡ source }
    {
        Table {
            counts,
            records,
            start,
            source,
        }
    }
}

impl<'a, N: Copy> Table<'a, N> {
    // Are there 1 to 24 features, each with 1 to 16 values? One step a feature.
    fn ask_features(&self) -> Result<(), Fault>
        ensures { AsksFeatures self.now.source self.now.counts.now Accepts (refusal result) }
    {
        if !(1..=24).contains(&self.counts.len()) {
            return Err(Fault::BadFeatureCount {
                line: self.source.line(2),
            });
        }
        for (feature, count) in self.counts.iter().enumerate() {
            if !(1..=16).contains(count) {
                return Err(Fault::BadValueCount {
                    feature,
                    line: self.source.line(3 + feature),
                });
            }
        }
        Ok(())
    }

    // Are the features so, and are there at most 2,046 records? One step a feature.
    pub(crate) fn ask_sizes(&self) -> Result<(), Fault>
        ensures { AsksSizes self.now.source self.now.counts.now (length self.now.records.now) Accepts (refusal result) }
    {
        self.ask_features()?;
        if self.records.len() > 2046 {
            return Err(Fault::TooManyRecords {
                line: self.source.line(3 + self.counts.len()),
            });
        }
        Ok(())
    }
}
