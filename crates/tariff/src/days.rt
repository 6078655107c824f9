// Times in days, of which the longer counts.
ghost use Rattle.tariff.specs.Days.{days_costs};
ghost use Rattle.tariff.specs.DaysLaws.{days_lawful};
ghost use Rattle.std.proofs.Common.{lit≤};

use crate::Tariff;

// Times in days.
pub struct Days;

impl Tariff for Days {
    type Cost = u16;

    const NUMBERS: usize = 1;

    ghost NUMBERS = { 1 };

    ghost costs = { days_costs };

    ghost lawful = { days_lawful };

    ghost few = { (lit≤ tt, lit≤ tt) };

    fn neutral() -> u16 {
        0
    }

    // The longer time.
    fn join(a: u16, b: u16) -> u16 {
        a.max(b)
    }

    fn not_dearer(a: u16, b: u16) -> bool {
        a <= b
    }
}
