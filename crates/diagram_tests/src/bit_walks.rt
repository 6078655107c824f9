// Steps and walks through bit diagrams.
use crate::tables::{bit, holds_example};
use book::{RuleBook, is_full, is_permitted, walk};
use diagram_books::source::Source;
use diagram_books::table::Table;
use std::test::Fail;

// Each full set of the example: all but size 2 with finish 1.
#[test]
fn example(rt: HostRuntime) -> Result<(), Fail> {
    let product = examples::example();
    let book = Table::new(
        &product.counts,
        &product.bits,
        product.start,
        Source::Memory,
    )
    .check()?;
    holds_example(&rt, &book);
    assert!(rt; !is_permitted(&book, &[3, 0, 0]));
    assert!(rt; !is_permitted(&book, &[0, 0]));
    assert!(rt; !is_full(&book, &[0, 0, 0, 0]));
    assert_eq!(rt; walk(&book, &[0, 0, 0]), Some(1));
    assert_eq!(rt; walk(&book, &[2, 0, 0]), Some(1));
    assert_eq!(rt; walk(&book, &[2, 1, 0]), None);
    assert_eq!(rt; walk(&book, &[2]), Some(4));
    assert_eq!(rt; walk(&book, &[]), Some(2));
    Ok(())
}

// Each step of the example that matters: from a record, from one of an earlier or a later feature, from 1 and from 0.
#[test]
fn steps(rt: HostRuntime) -> Result<(), Fail> {
    let product = examples::example();
    let book = Table::new(
        &product.counts,
        &product.bits,
        product.start,
        Source::Memory,
    )
    .check()?;
    for (feature, place, value, next) in [
        (0, 2, 0, Some(1)),
        (0, 2, 1, Some(1)),
        (0, 2, 2, Some(4)),
        (0, 3, 2, Some(4)),
        (0, 4, 0, Some(4)),
        (1, 4, 0, Some(1)),
        (1, 4, 1, None),
        (1, 2, 0, None),
        (1, 3, 0, None),
        (2, 4, 0, None),
        (0, 1, 2, Some(1)),
        (2, 1, 1, Some(1)),
        (0, 0, 0, None),
        (0, 2, 3, None),
        (0, 5, 0, None),
        (3, 1, 0, None),
    ] {
        assert_eq!(rt; book.step(feature, place, value), next);
    }
    Ok(())
}

// Weights: value 1 is bit 0 of a feature and value 2 its bit 1; bits that are skipped are free; features of one value have
// no bit.
#[test]
fn weights(rt: HostRuntime) -> Result<(), Fail> {
    // three features of 1, 4 and 1 values, and one of 16: bits 0 and 1, then bits 2 to 5
    let counts = [1, 4, 1, 16];
    let records = [bit(0, 0, 3), bit(3, 0, 4), bit(5, 1, 0)];
    let book = Table::new(&counts, &records, 2, Source::Memory).check()?;
    for second in 0..4 {
        for fourth in 0..16 {
            let permitted = second % 2 == 1 && fourth / 2 % 2 == 1 && fourth < 8;
            assert_eq!(rt; is_permitted(&book, &[0, second, 0, fourth]), permitted);
        }
    }
    Ok(())
}

// The start 0 permits nothing, 1 everything, and a record what it leads to.
#[test]
fn starts(rt: HostRuntime) -> Result<(), Fail> {
    let records = [bit(1, 0, 1)];
    let counts = [2, 2];
    for (start, sets) in [
        (0, [false, false, false, false]),
        (1, [true, true, true, true]),
        (2, [false, true, false, true]),
    ] {
        let book = Table::new(&counts, &records, start, Source::Memory).check()?;
        let [none, second, first, both] = sets;
        assert_eq!(rt; is_permitted(&book, &[0, 0]), none);
        assert_eq!(rt; is_permitted(&book, &[0, 1]), second);
        assert_eq!(rt; is_permitted(&book, &[1, 0]), first);
        assert_eq!(rt; is_permitted(&book, &[1, 1]), both);
    }
    Ok(())
}
