// Bit tables that are refused, and the question that refuses each.
use crate::tables::{bit, refused};
use book::RuleBook;
use diagram::BitNode;
use diagram_books::bits::BitDiagram;
use diagram_books::bits::widths::bit_width;
use diagram_books::source::Source;
use diagram_books::table::Table;
use fault::Fault;
use std::test::Fail;

// What the check says of a table with four values and one of two: bits 0 and 1, and bit 2.
// One for each form, since the trait that tells the forms apart is private to the crate of both.
fn outcome<'a>(records: &'a [BitNode], start: u32) -> Result<BitDiagram<'a>, Fault> {
    Table::new(&[4, 1, 2], records, start, Source::Catalogue).check()
}

// The fewest bits for each number of values.
#[test]
fn widths(rt: HostRuntime) {
    let fewest = [0, 0, 1, 2, 2, 3, 3, 3, 3, 4, 4, 4, 4, 4, 4, 4, 4];
    for (values, bits) in (0..17).zip(fewest) {
        assert_eq!(rt; bit_width(values), bits);
    }
}

// A bit that exists or not, at the record's line, and before the record's links are looked at.
#[test]
fn tests(rt: HostRuntime) -> Result<(), Fail> {
    outcome(&[bit(2, 0, 1)], 2)?;
    refused(&rt, outcome(&[bit(3, 0, 1)], 2), 3, 0, 7)?;
    refused(&rt, outcome(&[bit(4294967295, 0, 1)], 2), 3, 0, 7)?;
    refused(&rt, outcome(&[bit(3, 9, 9)], 9), 3, 0, 7)?;
    refused(&rt, outcome(&[bit(0, 3, 1), bit(3, 0, 1)], 2), 3, 1, 8)
}

// Links to 0 and 1, to a later and to an earlier record, to one of the same and of a smaller bit, and to no record.
#[test]
fn links(rt: HostRuntime) -> Result<(), Fail> {
    outcome(&[bit(0, 0, 1), bit(0, 1, 0)], 2)?;
    outcome(&[bit(0, 3, 3), bit(1, 0, 1)], 2)?;
    outcome(&[bit(1, 0, 1), bit(0, 2, 2)], 3)?;
    refused(&rt, outcome(&[bit(1, 3, 1), bit(1, 0, 1)], 2), 4, 0, 7)?;
    refused(&rt, outcome(&[bit(1, 1, 3), bit(1, 0, 1)], 2), 4, 0, 7)?;
    refused(&rt, outcome(&[bit(1, 0, 1), bit(2, 0, 2)], 2), 4, 1, 8)?;
    refused(&rt, outcome(&[bit(0, 2, 1)], 2), 4, 0, 7)?;
    refused(&rt, outcome(&[bit(0, 1, 3)], 2), 4, 0, 7)?;
    refused(&rt, outcome(&[bit(0, 4294967295, 1)], 2), 4, 0, 7)?;
    // a link is judged by the bit that its target has written, also where that does not exist
    refused(&rt, outcome(&[bit(0, 3, 1), bit(9, 0, 1)], 2), 3, 1, 8)?;
    // the first record decides, before the bit of the second
    refused(&rt, outcome(&[bit(0, 2, 1), bit(9, 0, 1)], 2), 4, 0, 7)
}

// The start is any existing link, also 0, 1 and a record that none leads to; its line is the one below its count.
#[test]
fn starts(rt: HostRuntime) -> Result<(), Fail> {
    let records = [bit(0, 0, 1), bit(2, 1, 0)];
    for start in 0..4 {
        outcome(&records, start)?;
    }
    refused(&rt, outcome(&records, 4), 5, 0, 10)?;
    refused(&rt, outcome(&records, 4294967295), 5, 0, 10)?;
    refused(&rt, outcome(&[], 2), 5, 0, 8)
}

// Without a catalogue no fault has a line; in the place of a refused table stands a book that permits nothing.
#[test]
fn memory(rt: HostRuntime) -> Result<(), Fail> {
    let records = [bit(0, 0, 9)];
    let table = Table::new(&[4, 1, 2], &records, 2, Source::Memory);
    let checked = table.check();
    refused(&rt, checked, 4, 0, 0)?;
    for book in [table.book(), checked.unwrap_or(BitDiagram::nothing())] {
        assert_eq!(rt; book.features(), 1);
        assert_eq!(rt; book.start(), None);
    }
    Ok(())
}

// The example's book has the same table.
#[test]
fn example(rt: HostRuntime) -> Result<(), Fail> {
    let product = examples::example();
    let table = Table::new(
        &product.counts,
        &product.bits,
        product.start,
        Source::Memory,
    );
    for book in [table.check()?, table.book()] {
        assert_eq!(rt; book.features(), 3);
        assert_eq!(rt; book.values(0), 3);
        assert_eq!(rt; book.values(2), 2);
        assert_eq!(rt; book.values(3), 0);
        assert_eq!(rt; book.places(), 5);
        assert_eq!(rt; book.start(), Some(2));
    }
    Ok(())
}
