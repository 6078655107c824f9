// What is printed of a text's places.
ghost use Rattle.std.specs.Prelude.{Some};
ghost use Rattle.places.specs.Reports.{count_text};

use std::fmt;

// The number of places of a rule book, as it is printed.
#[derive(Clone, Copy)]
pub struct PlaceCount(pub usize);

impl fmt::Display for PlaceCount {
    ghost output = { λ c. Some (count_text c) };

    fn fmt<W: fmt::Write>(&self, f: &mut fmt::Formatter<W>) -> fmt::Result {
        let places = self.0;
        write!(f, "places at most {places}")
    }
}
