// A tariff is a kind of cost: the cost of nothing, how two costs join, and which of two is not dearer.
#![tactic(auto)]

ghost use Rattle.std.specs.Prelude.{◌≡◌, ℕ, ◌≤◌};
ghost use Rattle.tariff.specs.Costs.{Costs, Lawful, total};

pub mod cents;
pub mod costs;
pub mod days;
pub mod specials;

pub use cents::{Cents, within_ceiling};
pub use costs::{Amount, Money, Special};
pub use days::Days;
pub use specials::Specials;

// A kind of cost, with the laws that generic code may rely on.
pub trait Tariff {
    type Cost: Copy;

    // How many numbers a written price has: 1 or 2.
    const NUMBERS: usize;

    // The same number, as contracts speak of it.
    ghost NUMBERS: { ℕ };

    // The neutral cost, the joining and the order, as contracts speak of them.
    ghost costs: { Costs Self.Cost };

    // How many numbers a written price has. Constant time.
    fn number_count() -> usize
        ensures { result ≡ NUMBERS }
    {
        Self::NUMBERS
    }

    // The cost of nothing. Constant time.
    fn neutral() -> Self::Cost
        ensures { result ≡ costs.neutral };

    // The cost of one thing and then another. Constant time.
    fn join(a: Self::Cost, b: Self::Cost) -> Self::Cost
        ensures { result ≡ costs.join a b };

    // Whether the first cost is not dearer than the second. Constant time. No default says `a <= b`: each tariff
    // would then owe a law that the order of its cost type is that of `costs`, which is more to write than this.
    fn not_dearer(a: Self::Cost, b: Self::Cost) -> bool
        ensures { result ≡ costs.le a b };

    // Joining and the order fit together. Joining need not commute.
    ghost lawful: { Lawful costs };

    // A written price has one number or two.
    ghost few: { (1 ≤ NUMBERS) × (NUMBERS ≤ 2) };
}

// All costs joined in order. One step a cost.
pub fn total<T: Tariff>(prices: &[T::Cost]) -> T::Cost
    ensures { result ≡ total T.costs prices.now }
{
    prices
        .iter()
        .fold(T::neutral(), |sum, price| T::join(sum, *price))
}

#[cfg(test)]
mod tests {
    use super::*;

    fn money(cents: u32) -> Money {
        Money { cents }
    }

    fn parts(count: u16, cents: u32) -> Special {
        Special::Parts(Amount { count, cents })
    }

    #[test]
    fn numbers(rt: HostRuntime) {
        assert_eq!(rt; (Cents::NUMBERS, Cents::number_count()), (1, 1));
        assert_eq!(rt; (Days::NUMBERS, Days::number_count()), (1, 1));
        assert_eq!(rt; (Specials::NUMBERS, Specials::number_count()), (2, 2));
    }

    #[test]
    fn cents_join(rt: HostRuntime) {
        for (a, b, sum) in [
            (900, 600, 1500),
            (4_294_967_294, 1, 4_294_967_295),
            (4_294_967_295, 1, 4_294_967_295),
            (1, 4_294_967_295, 4_294_967_295),
        ] {
            assert_eq!(rt; Cents::join(money(a), money(b)), money(sum));
        }
        assert_eq!(rt; Cents::join(Cents::neutral(), money(7)), money(7));
        assert_eq!(rt; Cents::join(money(7), Cents::neutral()), money(7));
    }

    #[test]
    fn cents_compare(rt: HostRuntime) {
        for (a, b, answer) in [(1, 2, true), (2, 2, true), (2, 1, false)] {
            assert_eq!(rt; Cents::not_dearer(money(a), money(b)), answer);
        }
    }

    #[test]
    fn days_join_and_compare(rt: HostRuntime) {
        for (a, b, longer, answer) in [(3, 9, 9, true), (9, 3, 9, false), (4, 4, 4, true)] {
            assert_eq!(rt; Days::join(a, b), longer);
            assert_eq!(rt; Days::not_dearer(a, b), answer);
        }
        assert_eq!(rt; Days::join(Days::neutral(), 5), 5);
        assert_eq!(rt; Days::join(5, Days::neutral()), 5);
    }

    #[test]
    fn specials_join(rt: HostRuntime) {
        for (a, b, sum) in [
            (parts(1, 900), parts(0, 600), parts(1, 1500)),
            (parts(65_534, 0), parts(1, 0), parts(65_535, 0)),
            (parts(65_535, 0), parts(1, 0), Special::Beyond),
            (
                parts(1, 4_294_967_295),
                parts(2, 1),
                parts(3, 4_294_967_295),
            ),
            (Special::Beyond, parts(0, 0), Special::Beyond),
            (parts(0, 0), Special::Beyond, Special::Beyond),
            (Special::Beyond, Special::Beyond, Special::Beyond),
            (Specials::neutral(), parts(3, 7), parts(3, 7)),
            (parts(3, 7), Specials::neutral(), parts(3, 7)),
        ] {
            assert_eq!(rt; Specials::join(a, b), sum);
        }
    }

    #[test]
    fn specials_compare(rt: HostRuntime) {
        for (a, b, there, back) in [
            (parts(1, 9), parts(2, 0), true, false),
            (parts(2, 3), parts(2, 4), true, false),
            (parts(2, 3), parts(2, 3), true, true),
            (parts(65_535, 4_294_967_295), Special::Beyond, true, false),
            (Special::Beyond, Special::Beyond, true, true),
        ] {
            assert_eq!(rt; Specials::not_dearer(a, b), there);
            assert_eq!(rt; Specials::not_dearer(b, a), back);
        }
    }

    #[test]
    fn totals(rt: HostRuntime) {
        assert_eq!(rt; total::<Cents>(&[]), money(0));
        assert_eq!(rt; total::<Cents>(&[money(5)]), money(5));
        assert_eq!(rt;
            total::<Cents>(&[money(5), money(900), money(600)]),
            money(1505)
        );
        assert_eq!(rt; total::<Days>(&[3, 9, 2]), 9);
        assert_eq!(rt;
            total::<Specials>(&[parts(1, 5), parts(0, 6), parts(2, 7)]),
            parts(3, 18)
        );
    }

    #[test]
    fn ceilings(rt: HostRuntime) {
        let few = [money(5), money(900), money(600)];
        assert!(rt; within_ceiling(&few, money(1505)));
        assert!(rt; within_ceiling(&few, money(1506)));
        assert!(rt; !within_ceiling(&few, money(1504)));
        let many = [money(4_294_967_295), money(4_294_967_295)];
        assert!(rt; !within_ceiling(&many, money(4_294_967_294)));
        assert!(rt; within_ceiling(&many, money(4_294_967_295)));
        assert!(rt; within_ceiling(&[], money(0)));
    }
}
