// One line for each kind of entry.
ghost use Rattle.std.specs.Prelude.{MatchResult};
ghost use Rattle.catalogue.specs.Forms.{Form, Lawful, Said, Unsaid, number_form};
ghost use Rattle.catalogue.specs.Content.{kind_form, one_form, feature_form, bit_form, column_form, call_form};
ghost use Rattle.catalogue.specs.WordLaws.{kind_lawful, one_lawful, feature_lawful, call_lawful};
ghost use Rattle.catalogue.specs.NumberLaws.{number_lawful, bit_lawful, column_lawful};

use crate::entries::{Call, Feature, Kind, One};
use diagram::{BitNode, ColumnNode};
use fault::Fault;
use text::line::Line;

// An entry that stands on a line of its own.
pub trait Row: Copy {
    // What the line says, and which entry it gives.
    ghost form: { Form Self };

    // The entry that a line gives, of which no field is taken yet. One step a byte of the line.
    fn row(line: Line<'_>) -> Result<Self, Fault>
        ensures { MatchResult result (λ e. Said form line.entry e) (λ f. Unsaid form line.entry f) };

    // The fields of a line tell what it says.
    ghost lawful: { Lawful form };
}

impl Row for Kind {
    ghost form = { kind_form };

    ghost lawful = { kind_lawful };

    fn row(mut line: Line<'_>) -> Result<Kind, Fault> {
        let word = line.word()?;
        line.end()?;
        match word {
            b"B" => Ok(Kind::Bit),
            b"C" => Ok(Kind::Column),
            _ => Err(line.ill_formed()),
        }
    }
}

impl Row for One {
    ghost form = { one_form };

    ghost lawful = { one_lawful };

    fn row(line: Line<'_>) -> Result<One, Fault> {
        match u32::row(line)? {
            1 => Ok(One),
            _ => Err(line.ill_formed()),
        }
    }
}

// Three impls for rows of numbers, since each names fields of its own; by a pattern, since of a closure that takes an array
// apart `map` says nothing.
impl Row for u32 {
    ghost form = { number_form };

    ghost lawful = { number_lawful };

    fn row(line: Line<'_>) -> Result<u32, Fault> {
        let [n] = line.numbers::<1>()?;
        Ok(n)
    }
}

impl Row for Feature {
    ghost form = { feature_form };

    ghost lawful = { feature_lawful };

    fn row(mut line: Line<'_>) -> Result<Feature, Fault> {
        let name = line.name()?;
        let [values] = line.numbers::<1>()?;
        Ok(Feature {
            place: line.start,
            length: name.len(),
            values,
        })
    }
}

impl Row for BitNode {
    ghost form = { bit_form };

    ghost lawful = { bit_lawful };

    fn row(line: Line<'_>) -> Result<BitNode, Fault> {
        let [bit, low, high] = line.numbers::<3>()?;
        Ok(BitNode { bit, low, high })
    }
}

impl Row for ColumnNode {
    ghost form = { column_form };

    ghost lawful = { column_lawful };

    fn row(line: Line<'_>) -> Result<ColumnNode, Fault> {
        let [column, value, high, low] = line.numbers::<4>()?;
        Ok(ColumnNode {
            column,
            value,
            high,
            low,
        })
    }
}

impl Row for Call {
    ghost form = { call_form };

    ghost lawful = { call_lawful };

    fn row(mut line: Line<'_>) -> Result<Call, Fault> {
        let word = line.word()?;
        match word {
            b"choose" => {
                let [feature, value] = line.numbers::<2>()?;
                Ok(Call::Choose { feature, value })
            }
            b"back" => {
                let [feature] = line.numbers::<1>()?;
                Ok(Call::Back { feature })
            }
            b"ceiling" => {
                let [cents] = line.numbers::<1>()?;
                Ok(Call::Ceiling { cents })
            }
            b"lift" => {
                line.end()?;
                Ok(Call::Lift)
            }
            _ => Err(line.ill_formed()),
        }
    }
}
