// Prices in cents, which add up and stop at the largest number.
ghost use Rattle.std.specs.Prelude.{◌≡◌, ◌<◌, ◌≤◌, ◌↔◌, IsTrue};
ghost use Rattle.tariff.specs.Money.{cents_costs};
ghost use Rattle.tariff.specs.TrueSums.{true_sum};
ghost use Rattle.tariff.specs.MoneyLaws.{money_lawful};
ghost use Rattle.std.proofs.Common.{lit≤};

use crate::costs::Money;
use crate::{Tariff, total};

// Prices in cents.
pub struct Cents;

impl Tariff for Cents {
    type Cost = Money;

    const NUMBERS: usize = 1;

    ghost NUMBERS = { 1 };

    ghost costs = { cents_costs };

    ghost lawful = { money_lawful };

    ghost few = { (lit≤ tt, lit≤ tt) };

    fn neutral() -> Money {
        Money { cents: 0 }
    }

    // The sum, or 4,294,967,295 where the sum is larger.
    fn join(a: Money, b: Money) -> Money {
        Money {
            cents: a.cents.saturating_add(b.cents),
        }
    }

    fn not_dearer(a: Money, b: Money) -> bool {
        a <= b
    }
}

// Whether the prices, joined, are within the ceiling. Below the largest ceiling that says of the true sum, however
// large it is, whether it is within the ceiling; the largest ceiling holds any prices. One step a price.
pub fn within_ceiling(prices: &[Money], ceiling: Money) -> bool
    ensures lower { ceiling.cents < 4294967295 → (IsTrue result ↔ (true_sum prices.now ≤ ceiling.cents)) }
    ensures largest { ceiling.cents ≡ 4294967295 → IsTrue result }
{
    Cents::not_dearer(total::<Cents>(prices), ceiling)
}
