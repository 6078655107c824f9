// A catalogue read into tables of chosen sizes.
use catalogue::entries::{Call, Contents, Feature};
use catalogue::tables::Tables;
use catalogue::whole::read;
use diagram::{BitNode, ColumnNode};
use fault::Fault;
use std::process::Abort;
use std::test::Fail;

pub const NO_FEATURE: Feature = Feature {
    place: 77,
    length: 77,
    values: 77,
};

pub const NO_BIT: BitNode = BitNode {
    bit: 77,
    low: 77,
    high: 77,
};

pub const NO_COLUMN: ColumnNode = ColumnNode {
    column: 77,
    value: 77,
    high: 77,
    low: 77,
};

pub const NO_PRICE: u32 = 77;

pub const NO_CALL: Call = Call::Back { feature: 77 };

// The example: three features, three bit records, seven prices, three calls.
pub const EXAMPLE: &[u8] =
    b"B\n3\nsize 3\nfinish 2\ncard 2\n3\n0 3 1\n1 1 4\n2 1 0\n1\n2\n7\n900\n1100\n1500\n0\n300\n0\n600\n3\nceiling 1500\nchoose 0 2\nchoose 2 1\n";

// Tables of eight entries each.
pub(crate) type EightEach = Tables<8, 8, 8, 8>;

// Reads into new tables of which so many entries are lent, at most eight of each, in the order of the fields. Gives the
// answer, and the tables.
pub(crate) fn read_into(text: &[u8], rooms: [usize; 5]) -> (Result<Contents, Fault>, EightEach) {
    let mut tables = Tables {
        features: [NO_FEATURE; 8],
        bits: [NO_BIT; 8],
        columns: [NO_COLUMN; 8],
        prices: [NO_PRICE; 8],
        calls: [NO_CALL; 8],
    };
    let [features, bits, columns, prices, calls] = rooms;
    let answer = read(
        text,
        &mut tables.features[..features.min(8)],
        &mut tables.bits[..bits.min(8)],
        &mut tables.columns[..columns.min(8)],
        &mut tables.prices[..prices.min(8)],
        &mut tables.calls[..calls.min(8)],
    );
    (answer, tables)
}

// The answer alone.
pub(crate) fn read_in(text: &[u8], rooms: [usize; 5]) -> Result<Contents, Fault> {
    read_into(text, rooms).0
}

// As in the tests of diagrams, whose faults have a place too; what is compiled for tests alone no other crate can use.
// Holds an answer to a refusal with this number and line, and with place 0.
pub(crate) fn refused(
    rt: &impl Abort,
    answer: Result<Contents, Fault>,
    number: u32,
    line: usize,
) -> Result<(), Fail> {
    let Err(fault) = answer else {
        return Err(Fail::new("accepted"));
    };
    assert_eq!(rt; fault.number(), number);
    assert_eq!(rt; fault.line(), line);
    assert_eq!(rt; fault.place(), 0);
    Ok(())
}
