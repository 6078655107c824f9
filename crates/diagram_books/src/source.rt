// Where a table came from.
ghost use Rattle.std.specs.Prelude.{◌≡◌};
ghost use Rattle.diagram_books.specs.Checks.{line_in};

// A table that was read from a catalogue has a line for each entry, which its faults name; one that was made in memory has
// none, and its faults have line 0: a number and no Option, since a fault always prints a line.
#[derive(Clone, Copy, Debug)]
pub enum Source {
    Catalogue,
    Memory,
}

impl Source {
    // The line that a fault names, for an entry that stands in this line of a catalogue. Constant time.
    pub fn line(self, line: usize) -> usize
        ensures { result ≡ line_in self line }
    {
        match self {
            Source::Catalogue => line,
            Source::Memory => 0,
        }
    }
}
