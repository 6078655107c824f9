// What the tables of a catalogue hold.
ghost use Rattle.std.specs.Prelude.{◌≡◌, ◌+◌, ◌<◌, ◌≤◌, length, Some, MatchOption};
ghost use Rattle.catalogue.specs.Content.{kind_name, contents_text};
ghost use Rattle.catalogue.specs.Whole.{name_in};

use std::fmt;

// The form of the diagram that the records are of.
#[derive(Clone, Copy, Debug, PartialEq)]
pub enum Kind {
    Bit,
    Column,
}

// A kind prints as the word that stands for it in a catalogue.
impl fmt::Display for Kind {
    ghost output = { λ k. Some (kind_name k) };

    fn fmt<W: fmt::Write>(&self, f: &mut fmt::Formatter<W>) -> fmt::Result {
        f.write_str(match self {
            Kind::Bit => "B",
            Kind::Column => "C",
        })
    }
}

// A feature: where its name stands in the text, how many bytes it has, and how many values the feature has. The name is no
// slice, since a lent table may live longer than the text.
#[derive(Clone, Copy, Debug, PartialEq)]
pub struct Feature {
    pub place: usize,
    pub length: usize,
    pub values: u32,
}

impl Feature {
    // The feature's name in the text that it was read from, or none in a text that is too short to be that one.
    // Constant time: it is a part of the text.
    pub fn name<'a>(&self, text: &'a [u8]) -> Option<&'a [u8]>
        ensures { MatchOption result
            (length text.now < self.now.place + self.now.length)
            (λ n. (self.now.place + self.now.length ≤ length text.now) × (n.now ≡ name_in text.now self.now)) }
    {
        let end = self.place.checked_add(self.length)?;
        text.get(self.place..end)
    }
}

// A call on a slip, as it stands in a catalogue.
#[derive(Clone, Copy, Debug, PartialEq)]
pub enum Call {
    Choose { feature: u32, value: u32 },
    Back { feature: u32 },
    Ceiling { cents: u32 },
    Lift,
}

// What a catalogue says besides its tables: the form, how many entries each table has, and the start link.
// Counts and no slices: a slice would borrow its table, and no contract could then say what the table holds.
#[derive(Clone, Copy, Debug, PartialEq)]
pub struct Contents {
    pub kind: Kind,
    pub features: usize,
    pub records: usize,
    pub start: u32,
    pub prices: usize,
    pub calls: usize,
}

// Prints a line each for the kind and the counts.
impl fmt::Display for Contents {
    ghost output = { λ c. Some (contents_text c) };

    fn fmt<W: fmt::Write>(&self, f: &mut fmt::Formatter<W>) -> fmt::Result {
        let Contents {
            kind,
            features,
            records,
            prices,
            calls,
            ..
        } = *self;
        write!(
            f,
            "kind {kind}\nfeatures {features}\nrecords {records}\nprices {prices}\ncalls {calls}"
        )
    }
}

// The count of a section that has exactly one entry.
#[derive(Clone, Copy)]
pub struct One;
