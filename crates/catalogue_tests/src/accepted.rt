// Catalogues that are accepted, and what then stands in the tables.
use crate::reading::{
    EXAMPLE, NO_BIT, NO_CALL, NO_COLUMN, NO_FEATURE, NO_PRICE, read_in, read_into, refused,
};
use catalogue::desk::DeskTables;
use catalogue::entries::{Call, Contents, Feature, Kind};
use diagram::{BitNode, ColumnNode};
use std::test::Fail;

// The example, into tables that have one entry more than it needs.
#[test]
fn example(rt: HostRuntime) -> Result<(), Fail> {
    let (answer, tables) = read_into(EXAMPLE, [4, 4, 1, 8, 4]);
    let contents = answer?;
    assert_eq!(rt;
        contents,
        Contents {
            kind: Kind::Bit,
            features: 3,
            records: 3,
            start: 2,
            prices: 7,
            calls: 3,
        }
    );
    assert_eq!(rt; tables.features[1], feature(11, 6, 2));
    assert_eq!(rt; tables.features[3], NO_FEATURE);
    assert_eq!(rt;
        tables.features[1].name(EXAMPLE),
        Some(b"finish".as_slice())
    );
    assert_eq!(rt; tables.features[2].name(EXAMPLE), Some(b"card".as_slice()));
    assert_eq!(rt; tables.features[3].name(EXAMPLE), None);
    assert_eq!(rt; tables.bits[1], bit(1, 1, 4));
    assert_eq!(rt; tables.bits[3], NO_BIT);
    assert_eq!(rt; tables.columns[0], NO_COLUMN);
    assert_eq!(rt; tables.prices, [900, 1100, 1500, 0, 300, 0, 600, NO_PRICE]);
    assert_eq!(rt; tables.calls[0], Call::Ceiling { cents: 1500 });
    assert_eq!(rt;
        tables.calls[2],
        Call::Choose {
            feature: 2,
            value: 1,
        }
    );
    assert_eq!(rt; tables.calls[3], NO_CALL);
    Ok(())
}

fn feature(place: usize, length: usize, values: u32) -> Feature {
    Feature {
        place,
        length,
        values,
    }
}

// As in the tests of diagrams, which no other crate can see.
fn bit(bit: u32, low: u32, high: u32) -> BitNode {
    BitNode { bit, low, high }
}

// The largest number, a name of 20 bytes, a name of digits and one that is a hyphen.
#[test]
fn edges(rt: HostRuntime) -> Result<(), Fail> {
    let text =
        b"B\n2\nabcdefghij0123456789 4294967295\n7 0\n0\n1\n4294967295\n1\n4294967295\n1\nceiling 4294967295\n";
    let contents = read_in(text, [2, 0, 0, 1, 1])?;
    assert_eq!(rt; contents.start, 4294967295);
    assert_eq!(rt; contents.features, 2);
    assert_eq!(rt;
        read_in(b"B\n1\n- 0\n0\n1\n0\n0\n0\n", [1, 0, 0, 0, 0])?.features,
        1
    );
    assert_eq!(rt;
        read_in(b"C\n0\n0\n1\n0\n0\n0\n", [0; 5])?.kind,
        Kind::Column
    );
    Ok(())
}

// A column catalogue leaves the table of bit records alone; every kind of call.
#[test]
fn columns(rt: HostRuntime) -> Result<(), Fail> {
    let text = b"C\n0\n1\n1 2 3 4\n1\n2\n0\n4\nchoose 5 6\nback 7\nceiling 8\nlift\n";
    let (answer, tables) = read_into(text, [0, 1, 2, 0, 4]);
    let contents = answer?;
    assert_eq!(rt; contents.kind, Kind::Column);
    assert_eq!(rt; contents.records, 1);
    assert_eq!(rt; tables.bits[0], NO_BIT);
    assert_eq!(rt;
        tables.columns[0],
        ColumnNode {
            column: 1,
            value: 2,
            high: 3,
            low: 4,
        }
    );
    assert_eq!(rt; tables.columns[1], NO_COLUMN);
    assert_eq!(rt;
        &tables.calls[..4],
        [
            Call::Choose {
                feature: 5,
                value: 6,
            },
            Call::Back { feature: 7 },
            Call::Ceiling { cents: 8 },
            Call::Lift,
        ]
        .as_slice()
    );
    Ok(())
}

// The number of the line that a text stops in.
fn lines(text: &[u8]) -> usize {
    text.split(|b| *b == b'\n').count()
}

// The example cut after any of its bytes is refused at the line where it stops.
#[test]
fn cut(rt: HostRuntime) -> Result<(), Fail> {
    for (i, _) in EXAMPLE.iter().enumerate() {
        let front = &EXAMPLE[..i];
        refused(&rt, read_in(front, [8; 5]), 16, lines(front))?;
    }
    assert_eq!(rt; lines(EXAMPLE), 24);
    Ok(())
}

// Tables that the example fills to the last entry, and one entry too small.
#[test]
fn rooms(rt: HostRuntime) -> Result<(), Fail> {
    assert!(rt; read_in(EXAMPLE, [3, 3, 3, 7, 3]).is_ok());
    refused(&rt, read_in(EXAMPLE, [2, 3, 3, 7, 3]), 17, 2)?;
    refused(&rt, read_in(EXAMPLE, [3, 2, 2, 7, 3]), 17, 6)?;
    refused(&rt, read_in(EXAMPLE, [3, 3, 3, 6, 3]), 17, 12)?;
    refused(&rt, read_in(EXAMPLE, [3, 3, 3, 7, 2]), 17, 20)
}

// What was read before a refusal stays, and nothing later is written.
#[test]
fn stays(rt: HostRuntime) -> Result<(), Fail> {
    let text = b"B\n1\na 5\n3\n1 2 3\n4 5 6\n7 8\n1\n2\n1\n9\n0\n";
    let (answer, tables) = read_into(text, [2, 3, 1, 1, 1]);
    refused(&rt, answer, 15, 7)?;
    assert_eq!(rt;
        &tables.features[..2],
        [feature(4, 1, 5), NO_FEATURE].as_slice()
    );
    assert_eq!(rt;
        &tables.bits[..3],
        [bit(1, 2, 3), bit(4, 5, 6), NO_BIT].as_slice()
    );
    assert_eq!(rt; tables.columns[0], NO_COLUMN);
    assert_eq!(rt; tables.prices[0], NO_PRICE);
    assert_eq!(rt; tables.calls[0], NO_CALL);
    Ok(())
}

// A name is taken from the text that it was read from, and not past the end of a shorter one.
#[test]
fn names(rt: HostRuntime) {
    assert_eq!(rt; feature(2, 3, 1).name(b"B\nabc 1"), Some(b"abc".as_slice()));
    assert_eq!(rt; feature(4, 3, 1).name(b"B\nabc"), None);
    assert_eq!(rt; feature(5, 0, 1).name(b"B\nabc"), Some(b"".as_slice()));
    assert_eq!(rt; feature(18446744073709551615, 1, 1).name(b"B\nabc"), None);
}

// The tables of a program: blank, left alone by a text that is too long, and then filled.
#[test]
fn desk(rt: HostRuntime) -> Result<(), Fail> {
    let mut tables = DeskTables::blank();
    refused(&rt, tables.take(&[b'B'; 16385]), 17, 0)?;
    assert_eq!(rt; tables.features[0], feature(0, 0, 0));
    assert_eq!(rt; tables.prices[0], 0);
    assert_eq!(rt; tables.calls[0], Call::Lift);
    let contents = tables.take(EXAMPLE)?;
    assert_eq!(rt; contents.prices, 7);
    assert_eq!(rt; tables.features[0], feature(4, 4, 3));
    assert_eq!(rt; tables.bits[2], bit(2, 1, 0));
    assert_eq!(rt; tables.prices[6], 600);
    assert_eq!(rt; tables.prices[7], 0);
    assert_eq!(rt; tables.calls[3], Call::Lift);
    Ok(())
}
