// Every refusal of the system, by one enum: what is wrong, and where.
#![tactic(auto)]

ghost use Rattle.std.specs.Prelude.{◌≡◌, Some};
ghost use Rattle.fault.specs.Told.{told, layer_name, fault_line};

pub mod report;

use std::fmt;

// The part of the system that refuses: the reader of texts, the check of a diagram's table, or a call on a slip. A slip is
// what a customer has settled so far: choices, and a price ceiling or none.
#[derive(Clone, Copy, Debug, PartialEq)]
pub enum Layer {
    File,
    Table,
    Slip,
}

impl fmt::Display for Layer {
    ghost output = { λ l. Some (layer_name l) };

    fn fmt<W: fmt::Write>(&self, f: &mut fmt::Formatter<W>) -> fmt::Result {
        f.write_str(match self {
            Layer::File => "file",
            Layer::Table => "table",
            Layer::Slip => "slip",
        })
    }
}

// What is wrong. Each case answers no to one numbered question (`specs/Told.antt` has the numbers, layers, places and
// lines), and holds just the values that its place and its line need: the index of a feature or of a record, and the
// line of the catalogue, counted from 1 (0 where there is no catalogue). What is printed is a number, a word and two numbers
// always, so that 0 stands for no place and for no line, and no Option does.
#[derive(Clone, Copy, Debug)]
pub enum Fault {
    // There are no features, or too many.
    BadFeatureCount { line: usize },
    // The feature has no value, or too many.
    BadValueCount { feature: usize, line: usize },
    TooManyRecords { line: usize },
    // The bit that the record tests, or the column and value, do not exist.
    NoSuchTest { record: usize, line: usize },
    // A link of the record leads where it must not.
    BadLink { record: usize, line: usize },
    BadStart { line: usize },
    // The price list has not one cost a value.
    PriceCount,
    // A work strip (a lent table for the costs that a call works out) is too short.
    StripLength,
    // The slip has another number of features than the book, or a choice that is no value there.
    SlipOfAnotherBook,
    NoSuchFeature { feature: usize },
    // The feature has no such value.
    NoSuchValue { feature: usize },
    // The result has not one place a feature.
    ResultLength,
    FeatureNotChosen,
    // No full set (one value for every feature) fits the slip.
    NothingFits,
    // No full set would fit the slip with this choice of the feature.
    ChoiceWouldNotFit { feature: usize },
    // No full set would fit the slip with this ceiling.
    CeilingWouldNotFit,
    IllFormedLine { line: usize },
    // The text ends too early, inside a line, or too late.
    TextEnd { line: usize },
    // The count is larger than the table that is lent for its section.
    TableTooSmall { line: usize },
}

impl Fault {
    // The number of the question that is answered by no. Constant time.
    pub fn number(&self) -> u32
        ensures { result ≡ (told self.now).number }
    {
        match self {
            Fault::BadFeatureCount { .. } | Fault::BadValueCount { .. } => 1,
            Fault::TooManyRecords { .. } => 2,
            Fault::NoSuchTest { .. } => 3,
            Fault::BadLink { .. } => 4,
            Fault::BadStart { .. } => 5,
            Fault::PriceCount => 6,
            Fault::StripLength => 7,
            Fault::SlipOfAnotherBook => 8,
            Fault::NoSuchFeature { .. } => 9,
            Fault::NoSuchValue { .. } => 10,
            Fault::ResultLength => 11,
            Fault::FeatureNotChosen => 12,
            Fault::NothingFits => 13,
            Fault::ChoiceWouldNotFit { .. } | Fault::CeilingWouldNotFit => 14,
            Fault::IllFormedLine { .. } => 15,
            Fault::TextEnd { .. } => 16,
            Fault::TableTooSmall { .. } => 17,
        }
    }

    // The layer that refuses. Constant time. By the number, since the questions are numbered by layer, and a match on the
    // cases would list them all once more.
    pub fn layer(&self) -> Layer
        ensures { result ≡ (told self.now).layer }
    {
        match self.number() {
            1..=5 => Layer::Table,
            6..=14 => Layer::Slip,
            _ => Layer::File,
        }
    }

    // The feature or the record that the fault is about, or 0. Constant time.
    pub fn place(&self) -> usize
        ensures { result ≡ (told self.now).place }
    {
        match self {
            Fault::BadValueCount { feature, .. }
            | Fault::NoSuchFeature { feature }
            | Fault::NoSuchValue { feature }
            | Fault::ChoiceWouldNotFit { feature } => *feature,
            Fault::NoSuchTest { record, .. } | Fault::BadLink { record, .. } => *record,
            _ => 0,
        }
    }

    // The line of the text where the entry stands, counted from 1, or 0. Constant time.
    pub fn line(&self) -> usize
        ensures { result ≡ (told self.now).line }
    {
        match self {
            Fault::BadFeatureCount { line }
            | Fault::BadValueCount { line, .. }
            | Fault::TooManyRecords { line }
            | Fault::NoSuchTest { line, .. }
            | Fault::BadLink { line, .. }
            | Fault::BadStart { line }
            | Fault::IllFormedLine { line }
            | Fault::TextEnd { line }
            | Fault::TableTooSmall { line } => *line,
            _ => 0,
        }
    }
}

impl fmt::Display for Fault {
    ghost output = { λ f. Some (fault_line f) };

    fn fmt<W: fmt::Write>(&self, f: &mut fmt::Formatter<W>) -> fmt::Result {
        let number = self.number();
        let layer = self.layer();
        let place = self.place();
        let line = self.line();
        write!(f, "fault {number} {layer} {place} {line}")
    }
}

#[cfg(test)]
mod tests {
    use super::Fault;
    use std::test::Fail;

    // One fault of each layer and of each way to have a place and a line.
    #[test]
    fn lines(rt: HostRuntime) -> Result<(), Fail> {
        let faults = [
            (Fault::BadFeatureCount { line: 2 }, "fault 1 table 0 2"),
            (
                Fault::BadValueCount {
                    feature: 4,
                    line: 7,
                },
                "fault 1 table 4 7",
            ),
            (
                Fault::BadLink {
                    record: 3,
                    line: 12,
                },
                "fault 4 table 3 12",
            ),
            (Fault::PriceCount, "fault 6 slip 0 0"),
            (Fault::NoSuchValue { feature: 23 }, "fault 10 slip 23 0"),
            (Fault::ChoiceWouldNotFit { feature: 2 }, "fault 14 slip 2 0"),
            (Fault::CeilingWouldNotFit, "fault 14 slip 0 0"),
            (Fault::TableTooSmall { line: 0 }, "fault 17 file 0 0"),
        ];
        for (fault, line) in faults {
            assert_eq!(rt; fault.to_string(rt.alloc())?.as_str(), line);
        }
        Ok(())
    }
}
