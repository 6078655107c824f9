// What a cost is, for each tariff that needs a type of its own. To the logic a number of the code is a number of any
// size, so each struct says that its numbers fit: the laws of a tariff then hold of every value, with no premise.
ghost use Rattle.std.specs.Prelude.{◌<◌};

// An amount of money, in cents.
#[derive(Clone, Copy, PartialEq, Eq, PartialOrd, Ord, Debug)]
pub struct Money {
    pub cents: u32,
    ghost fits: { cents < 4294967296 },
}

// A number of special parts, and what they cost together. Ordered by the number, then by the cost.
#[derive(Clone, Copy, PartialEq, Eq, PartialOrd, Ord, Debug)]
pub struct Amount {
    pub count: u16,
    pub cents: u32,
    ghost few: { count < 65536 },
    ghost fits: { cents < 4294967296 },
}

// Special parts with their price, or more parts than are counted, which are above any. It is no Option, since there None
// is below any.
#[derive(Clone, Copy, PartialEq, Eq, PartialOrd, Ord, Debug)]
pub enum Special {
    Parts(Amount),
    Beyond,
}
