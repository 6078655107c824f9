// Checks the diagram of a catalogue that was read.
ghost use Rattle.std.specs.Prelude.{◌≡◌, ◌+◌, ◌≤◌, map, IfOk};
ghost use Rattle.fault.specs.Questions.{refusal};
ghost use Rattle.places.specs.Surveys.{AsksTables};

use book::RuleBook;
use catalogue::desk::DeskTables;
use catalogue::entries::{Contents, Feature, Kind};
use diagram_books::source::Source;
use diagram_books::table::Table;
use fault::Fault;

// How many values each feature has. One step a feature of the table. An array of the table's size, since there is no heap.
fn value_counts(features: &[Feature; 24]) -> [u32; 24]
    ensures { result ≡ map (λ f. f.values) features.now }
{
    features.map(|feature| feature.values)
}

// The number of places of a rule book, if the check of its table passed. Constant time.
fn places_of<B: RuleBook + Copy>(checked: Result<B, Fault>) -> Result<usize, Fault>
    ensures refused { refusal result ≡ refusal checked }
    ensures places { IfOk checked (λ b. IfOk result (λ p. p ≡ (B.RuleBook.book b).places)) }
{
    Ok(checked?.places())
}

// The number of places of the rule book that a catalogue's tables hold, or the fault of the check. One step a feature and
// a record.
pub(crate) fn judge(contents: &Contents, tables: &DeskTables) -> Result<usize, Fault>
    requires few_features { contents.now.features ≤ 24 }
    requires few_records { contents.now.records ≤ 64 }
    ensures asked { AsksTables contents.now tables.now.features tables.now.bits tables.now.columns (refusal result) }
    ensures places { IfOk result (λ p. p ≡ contents.now.records + 2) }
{
    let Contents {
        kind,
        features,
        records,
        start,
        ..
    } = *contents;
    let counts = value_counts(&tables.features);
    let counts = &counts[..features];
    // the two tables are of two types, so that a match picks one, and no closure could
    match kind {
        Kind::Bit => {
            let table = Table::new(counts, &tables.bits[..records], start, Source::Catalogue);
            places_of(table.check())
        }
        Kind::Column => {
            let table = Table::new(counts, &tables.columns[..records], start, Source::Catalogue);
            places_of(table.check())
        }
    }
}
