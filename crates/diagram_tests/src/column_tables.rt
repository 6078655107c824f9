// Column tables that are refused, and the question that refuses each.
use crate::tables::{column, refused};
use book::RuleBook;
use diagram::ColumnNode;
use diagram_books::columns::ColumnDiagram;
use diagram_books::source::Source;
use diagram_books::table::Table;
use fault::Fault;
use std::test::Fail;

// What the check says of a table with columns of three and two values.
// One for each form, since the trait that tells the forms apart is private to the crate of both.
fn outcome<'a>(records: &'a [ColumnNode], start: u32) -> Result<ColumnDiagram<'a>, Fault> {
    Table::new(&[3, 2], records, start, Source::Catalogue).check()
}

// A column and a value that exist or not, at the record's line, and before the record's links are looked at.
#[test]
fn tests(rt: HostRuntime) -> Result<(), Fail> {
    outcome(&[column(1, 1, 1, 0)], 0)?;
    refused(&rt, outcome(&[column(2, 0, 1, 0)], 0), 3, 0, 6)?;
    refused(&rt, outcome(&[column(4294967295, 0, 1, 0)], 0), 3, 0, 6)?;
    refused(&rt, outcome(&[column(1, 2, 1, 0)], 0), 3, 0, 6)?;
    refused(&rt, outcome(&[column(0, 3, 9, 9)], 9), 3, 0, 6)?;
    refused(
        &rt,
        outcome(&[column(1, 0, 1, 0), column(1, 4294967295, 1, 0)], 0),
        3,
        1,
        7,
    )
}

// High leads to a record of the next column, later or earlier in the table, and in the last column to 1.
#[test]
fn high_links(rt: HostRuntime) -> Result<(), Fail> {
    outcome(&[column(0, 2, 3, 0), column(1, 0, 1, 0)], 2)?;
    outcome(&[column(1, 0, 1, 0), column(0, 0, 2, 0)], 3)?;
    for high in [0, 1, 2, 4, 4294967295] {
        refused(
            &rt,
            outcome(&[column(0, 0, high, 0), column(1, 0, 1, 0)], 0),
            4,
            0,
            6,
        )?;
    }
    for high in [0, 2, 3, 4] {
        refused(
            &rt,
            outcome(&[column(0, 0, 3, 0), column(1, 0, high, 0)], 0),
            4,
            1,
            7,
        )?;
    }
    Ok(())
}

// Low is 0, or leads to a record of the same column with a greater value, later or earlier in the table.
#[test]
fn low_links(rt: HostRuntime) -> Result<(), Fail> {
    outcome(&[column(1, 0, 1, 3), column(1, 1, 1, 0)], 0)?;
    outcome(&[column(1, 1, 1, 0), column(1, 0, 1, 2)], 0)?;
    // to 1, to itself, to a record of an equal or a smaller value, of another column, and to no record
    refused(&rt, outcome(&[column(1, 0, 1, 1)], 0), 4, 0, 6)?;
    refused(&rt, outcome(&[column(1, 0, 1, 2)], 0), 4, 0, 6)?;
    refused(
        &rt,
        outcome(&[column(1, 0, 1, 3), column(1, 0, 1, 0)], 0),
        4,
        0,
        6,
    )?;
    refused(
        &rt,
        outcome(&[column(1, 1, 1, 3), column(1, 0, 1, 0)], 0),
        4,
        0,
        6,
    )?;
    refused(
        &rt,
        outcome(&[column(1, 0, 1, 0), column(0, 0, 2, 2)], 0),
        4,
        1,
        7,
    )?;
    refused(&rt, outcome(&[column(1, 0, 1, 3)], 0), 4, 0, 6)?;
    // a link is judged by what its target has written, also where that does not exist
    refused(
        &rt,
        outcome(&[column(1, 1, 1, 3), column(1, 2, 1, 0)], 0),
        3,
        1,
        7,
    )
}

// The start is 0 or a record of column 0; its line is the one below its count.
#[test]
fn starts(rt: HostRuntime) -> Result<(), Fail> {
    let records = [column(1, 0, 1, 0), column(0, 0, 2, 0)];
    outcome(&records, 0)?;
    outcome(&records, 3)?;
    for start in [1, 2, 4, 4294967295] {
        refused(&rt, outcome(&records, start), 5, 0, 9)?;
    }
    refused(&rt, outcome(&[], 2), 5, 0, 7)
}

// Without a catalogue no fault has a line; in the place of a refused table stands a book that permits nothing.
#[test]
fn memory(rt: HostRuntime) -> Result<(), Fail> {
    let records = [column(1, 0, 0, 0)];
    let table = Table::new(&[3, 2], &records, 0, Source::Memory);
    let checked = table.check();
    refused(&rt, checked, 4, 0, 0)?;
    for book in [table.book(), checked.unwrap_or(ColumnDiagram::nothing())] {
        assert_eq!(rt; book.features(), 1);
        assert_eq!(rt; book.start(), None);
    }
    Ok(())
}
