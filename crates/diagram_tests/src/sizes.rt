// How many features, values and records a table may have, for both forms.
use crate::tables::{bit, column, refused};
use book::RuleBook;
use diagram_books::bits::BitTable;
use diagram_books::columns::ColumnTable;
use diagram_books::source::Source;
use diagram_books::table::Table;
use std::test::Fail;

// 0 and 25 features are refused, 1 and 24 pass; the fault names the count's line of a catalogue.
#[test]
fn feature_counts(rt: HostRuntime) -> Result<(), Fail> {
    let counts = [1; 25];
    for (n, passes) in [(0, false), (1, true), (24, true), (25, false)] {
        for (source, line) in [(Source::Memory, 0), (Source::Catalogue, 2)] {
            let bits = BitTable::new(&counts[0..n], &[], 1, source);
            let columns = ColumnTable::new(&counts[0..n], &[], 0, source);
            if passes {
                bits.check()?;
                columns.check()?;
            } else {
                refused(&rt, bits.check(), 1, 0, line)?;
                refused(&rt, columns.check(), 1, 0, line)?;
            }
        }
    }
    Ok(())
}

// 0 and 17 values are refused, 1 and 16 pass; the first such feature decides, before anything else is asked.
#[test]
fn value_counts(rt: HostRuntime) -> Result<(), Fail> {
    for (third, passes) in [(0, false), (1, true), (16, true), (17, false)] {
        let counts = [16, 1, third, 0];
        let bits = BitTable::new(&counts[0..3], &[], 1, Source::Catalogue);
        let columns = ColumnTable::new(&counts[0..3], &[], 0, Source::Catalogue);
        if passes {
            bits.check()?;
            columns.check()?;
        } else {
            refused(&rt, bits.check(), 1, 2, 5)?;
            refused(&rt, columns.check(), 1, 2, 5)?;
        }
    }
    refused(
        &rt,
        Table::new(&[0, 17], &[bit(9, 9, 9)], 9, Source::Memory).check(),
        1,
        0,
        0,
    )
}

// 2,046 records pass, and 2,047 are refused at the line of their count.
#[test]
fn record_counts(rt: HostRuntime) -> Result<(), Fail> {
    let bits = [bit(0, 0, 1); 2047];
    assert_eq!(rt;
        Table::new(&[2], &bits[0..2046], 2, Source::Catalogue)
            .check()?
            .places(),
        2048
    );
    refused(
        &rt,
        Table::new(&[2], &bits, 2, Source::Catalogue).check(),
        2,
        0,
        4,
    )?;
    let columns = [column(0, 1, 1, 0); 2047];
    assert_eq!(rt;
        Table::new(&[2], &columns[0..2046], 2, Source::Catalogue)
            .check()?
            .places(),
        2048
    );
    refused(
        &rt,
        Table::new(&[2], &columns, 2, Source::Catalogue).check(),
        2,
        0,
        4,
    )
}

// Too many records are refused before any of them is looked at.
#[test]
fn records_unseen(rt: HostRuntime) -> Result<(), Fail> {
    let bits = [bit(9, 9, 9); 2047];
    refused(
        &rt,
        Table::new(&[2], &bits, 2, Source::Catalogue).check(),
        2,
        0,
        4,
    )?;
    let columns = [column(9, 9, 9, 9); 2047];
    refused(
        &rt,
        Table::new(&[2], &columns, 2, Source::Catalogue).check(),
        2,
        0,
        4,
    )
}
