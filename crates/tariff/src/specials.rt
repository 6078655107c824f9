// Special parts: few parts matter most, then what they cost.
ghost use Rattle.tariff.specs.Special.{specials_costs};
ghost use Rattle.tariff.specs.SpecialLaws.{special_lawful};
ghost use Rattle.std.proofs.Common.{lit≤};

use crate::Tariff;
use crate::costs::{Amount, Special};

// Counts of special parts, with prices in cents.
pub struct Specials;

impl Tariff for Specials {
    type Cost = Special;

    const NUMBERS: usize = 2;

    ghost NUMBERS = { 2 };

    ghost costs = { specials_costs };

    ghost lawful = { special_lawful };

    ghost few = { (lit≤ tt, lit≤ tt) };

    fn neutral() -> Special {
        Special::Parts(Amount { count: 0, cents: 0 })
    }

    // Both counts and both prices added. The cents stop at 4,294,967,295, and more than 65,535 parts are beyond.
    fn join(a: Special, b: Special) -> Special {
        let (Special::Parts(x), Special::Parts(y)) = (a, b) else {
            return Special::Beyond;
        };
        match x.count.checked_add(y.count) {
            Some(count) => Special::Parts(Amount {
                count,
                cents: x.cents.saturating_add(y.cents),
            }),
            None => Special::Beyond,
        }
    }

    // By count, then by price. Beyond is dearest.
    fn not_dearer(a: Special, b: Special) -> bool {
        a <= b
    }
}
