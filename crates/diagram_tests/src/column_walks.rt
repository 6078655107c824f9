// Steps and walks through column diagrams.
use crate::tables::{column, holds_example};
use book::{RuleBook, is_permitted, walk};
use diagram::ColumnNode;
use diagram_books::source::Source;
use diagram_books::table::Table;
use std::test::Fail;

// The example's column form permits what its bit form permits.
#[test]
fn example(rt: HostRuntime) -> Result<(), Fail> {
    let product = examples::example();
    let book = Table::new(
        &product.counts,
        &product.columns,
        product.start,
        Source::Memory,
    )
    .check()?;
    assert_eq!(rt; book.features(), 3);
    assert_eq!(rt; book.places(), 10);
    holds_example(&rt, &book);
    assert_eq!(rt; walk(&book, &[0, 1, 1]), Some(1));
    assert_eq!(rt; walk(&book, &[2]), Some(7));
    for (feature, place, value, next) in [
        (0, 2, 0, Some(5)),
        (0, 2, 2, Some(7)),
        (0, 3, 0, None),
        (0, 2, 3, None),
        (1, 2, 0, None),
        (0, 5, 0, None),
        (0, 0, 0, None),
        (0, 1, 0, None),
        (0, 10, 0, None),
        (2, 8, 1, Some(1)),
        (3, 1, 0, None),
    ] {
        assert_eq!(rt; book.step(feature, place, value), next);
    }
    Ok(())
}

// A chain of 16 records, from value 0 to value 15: record v has the low link v + 3, to the record after it; the last has none.
fn chain_of_all() -> [ColumnNode; 16] {
    let mut records = [column(0, 15, 1, 0); 16];
    for (record, (value, low)) in records.iter_mut().zip((0..15).zip(3..18)) {
        *record = column(0, value, 1, low);
    }
    records
}

// A chain of 16 values, each found, and none from the middle for a value that was passed.
#[test]
fn chain(rt: HostRuntime) -> Result<(), Fail> {
    let records = chain_of_all();
    let book = Table::new(&[16], &records, 2, Source::Memory).check()?;
    for value in 0..16 {
        assert_eq!(rt; book.step(0, 2, value), Some(1));
        assert_eq!(rt; book.step(0, 10, value).is_some(), value >= 8);
        assert!(rt; is_permitted(&book, &[value]));
    }
    assert_eq!(rt; book.step(0, 2, 16), None);
    Ok(())
}

// The start 0 permits nothing, and a record what its chain has; a column of one value has one record.
#[test]
fn starts(rt: HostRuntime) -> Result<(), Fail> {
    let records = [column(0, 0, 4, 3), column(0, 1, 4, 0), column(1, 0, 1, 0)];
    let counts = [2, 1];
    for (start, first, second) in [(0, false, false), (2, true, true), (3, false, true)] {
        let book = Table::new(&counts, &records, start, Source::Memory).check()?;
        assert_eq!(rt; is_permitted(&book, &[0, 0]), first);
        assert_eq!(rt; is_permitted(&book, &[1, 0]), second);
    }
    Ok(())
}
