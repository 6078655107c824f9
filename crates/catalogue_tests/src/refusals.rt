// Each kind of line, broken in each way, with the question that says no and the line.
use crate::reading::{read_in, refused};
use std::process::Abort;
use std::test::Fail;

// A text, and the number and the line of the fault that it has to have with tables of two entries each. It is a tuple and
// no struct, so that each case is one line.
type Case = (&'static [u8], u32, usize);

fn hold(rt: &impl Abort, cases: &[Case]) -> Result<(), Fail> {
    for &(text, number, line) in cases {
        refused(rt, read_in(text, [2; 5]), number, line)?;
    }
    Ok(())
}

// Line 1 has to be B or C.
#[test]
fn kinds(rt: HostRuntime) -> Result<(), Fail> {
    hold(
        &rt,
        &[
            (b"b\n", 15, 1),
            (b"D\n", 15, 1),
            (b"BC\n", 15, 1),
            (b"B B\n", 15, 1),
            (b"B  \n", 15, 1),
            (b"B \n", 15, 1),
            (b" B\n", 15, 1),
            (b"B\r\n", 15, 1),
            (b"B\t\n", 15, 1),
            (b"\n", 15, 1),
            (b"", 16, 1),
            (b"B", 16, 1),
        ],
    )
}

// A count is one number, and has to fit its table of two entries.
#[test]
fn counts(rt: HostRuntime) -> Result<(), Fail> {
    hold(
        &rt,
        &[
            (b"B\n01\n", 15, 2),
            (b"B\n00\n", 15, 2),
            (b"B\n\n", 15, 2),
            (b"B\n+1\n", 15, 2),
            (b"B\n-1\n", 15, 2),
            (b"B\n1 \n", 15, 2),
            (b"B\n 1\n", 15, 2),
            (b"B\n1 1\n", 15, 2),
            (b"B\none\n", 15, 2),
            (b"B\n1\r\n", 15, 2),
            (b"B\n1\t\n", 15, 2),
            (b"B\n4294967296\n", 15, 2),
            (b"B\n12345678901\n", 15, 2),
            (b"B\n99999999999999999999\n", 15, 2),
            (b"B\n3\n", 17, 2),
            (b"B\n4294967295\n", 17, 2),
            (b"B\n03\n", 15, 2),
            (b"B\n2", 16, 2),
            (b"B\n", 16, 2),
        ],
    )
}

// A feature is a name and a number.
#[test]
fn features(rt: HostRuntime) -> Result<(), Fail> {
    hold(
        &rt,
        &[
            (b"B\n1\na\n", 15, 3),
            (b"B\n1\na 1 2\n", 15, 3),
            (b"B\n1\na  1\n", 15, 3),
            (b"B\n1\na 1 \n", 15, 3),
            (b"B\n1\n a 1\n", 15, 3),
            (b"B\n1\n 1\n", 15, 3),
            (b"B\n1\na \n", 15, 3),
            (b"B\n1\nA 1\n", 15, 3),
            (b"B\n1\na_b 1\n", 15, 3),
            (b"B\n1\na\t1\n", 15, 3),
            (b"B\n1\na 1\t\n", 15, 3),
            (b"B\n1\na 1\r\n", 15, 3),
            (b"B\n1\na 01\n", 15, 3),
            (b"B\n1\na -1\n", 15, 3),
            (b"B\n1\na x\n", 15, 3),
            (b"B\n1\na 4294967296\n", 15, 3),
            (b"B\n1\na 12345678901\n", 15, 3),
            (b"B\n1\nabcdefghij0123456789k 1\n", 15, 3),
            (b"B\n1\n\n", 15, 3),
            (b"B\n2\na 1\n2 -\n", 15, 4),
            (b"B\n1\na 1", 16, 3),
        ],
    )
}

// A record of a bit diagram has three numbers.
#[test]
fn bit_records(rt: HostRuntime) -> Result<(), Fail> {
    hold(
        &rt,
        &[
            (b"B\n0\n1\n0 0\n", 15, 4),
            (b"B\n0\n1\n0 0 0 0\n", 15, 4),
            (b"B\n0\n1\n0  0 0\n", 15, 4),
            (b"B\n0\n1\n0 0  0\n", 15, 4),
            (b"B\n0\n1\n0 0 0 \n", 15, 4),
            (b"B\n0\n1\n 0 0 0\n", 15, 4),
            (b"B\n0\n1\n00 0 0\n", 15, 4),
            (b"B\n0\n1\n0 00 0\n", 15, 4),
            (b"B\n0\n1\n0 0 00\n", 15, 4),
            (b"B\n0\n1\n0 0 x\n", 15, 4),
            (b"B\n0\n1\nx 0 0\n", 15, 4),
            (b"B\n0\n1\n0 0 4294967296\n", 15, 4),
            (b"B\n0\n1\n0 12345678901 0\n", 15, 4),
            (b"B\n0\n1\n0\t0\t0\n", 15, 4),
            (b"B\n0\n1\n0 0 0\r\n", 15, 4),
            (b"B\n0\n1\n0 0 \n", 15, 4),
            (b"B\n0\n1\n0\n", 15, 4),
            (b"B\n0\n1\n\n", 15, 4),
            (b"B\n0\n1\n0 0 -1\n", 15, 4),
            (b"B\n0\n3\n", 17, 3),
            (b"B\n0\n2\n0 0 0\n0 0\n", 15, 5),
        ],
    )
}

// A record of a column diagram has four.
#[test]
fn column_records(rt: HostRuntime) -> Result<(), Fail> {
    hold(
        &rt,
        &[
            (b"C\n0\n1\n0 0 0\n", 15, 4),
            (b"C\n0\n1\n0 0 0 0 0\n", 15, 4),
            (b"C\n0\n1\n0  0 0 0\n", 15, 4),
            (b"C\n0\n1\n0 0 0  0\n", 15, 4),
            (b"C\n0\n1\n0 0 0 0 \n", 15, 4),
            (b"C\n0\n1\n 0 0 0 0\n", 15, 4),
            (b"C\n0\n1\n00 0 0 0\n", 15, 4),
            (b"C\n0\n1\n0 0 0 00\n", 15, 4),
            (b"C\n0\n1\n0 0 0 x\n", 15, 4),
            (b"C\n0\n1\n0 00 0 0\n", 15, 4),
            (b"C\n0\n1\n0 12345678901 0 0\n", 15, 4),
            (b"C\n0\n1\n0\t0 0 0\n", 15, 4),
            (b"C\n0\n1\n0 0 0 \n", 15, 4),
            (b"C\n0\n1\n4294967296 0 0 0\n", 15, 4),
            (b"C\n0\n1\n0 0 0 0\r\n", 15, 4),
            (b"C\n0\n1\n0\n", 15, 4),
            (b"C\n0\n1\n\n", 15, 4),
            (b"C\n0\n3\n", 17, 3),
        ],
    )
}

// The start is a section of one number.
#[test]
fn starts(rt: HostRuntime) -> Result<(), Fail> {
    hold(
        &rt,
        &[
            (b"B\n0\n0\n0\n", 15, 4),
            (b"B\n0\n0\n2\n", 15, 4),
            (b"B\n0\n0\n01\n", 15, 4),
            (b"B\n0\n0\n1 1\n", 15, 4),
            (b"B\n0\n0\n1 \n", 15, 4),
            (b"B\n0\n0\n 1\n", 15, 4),
            (b"B\n0\n0\n1\r\n", 15, 4),
            (b"B\n0\n0\none\n", 15, 4),
            (b"B\n0\n0\n4294967295\n", 15, 4),
            (b"B\n0\n0\n\n", 15, 4),
            (b"B\n0\n0\n1\n\n", 15, 5),
            (b"B\n0\n0\n1\nx\n", 15, 5),
            (b"B\n0\n0\n1\n02\n", 15, 5),
            (b"B\n0\n0\n1\n0 0\n", 15, 5),
            (b"B\n0\n0\n1\n5 \n", 15, 5),
            (b"B\n0\n0\n1\n 5\n", 15, 5),
            (b"B\n0\n0\n1\n5\r\n", 15, 5),
            (b"B\n0\n0\n1\n5\t\n", 15, 5),
            (b"B\n0\n0\n1\n12345678901\n", 15, 5),
            (b"B\n0\n0\n1\n4294967296\n", 15, 5),
            (b"B\n0\n0\n1\n", 16, 5),
            (b"B\n0\n0\n1\n7", 16, 5),
        ],
    )
}

// A price is one number.
#[test]
fn prices(rt: HostRuntime) -> Result<(), Fail> {
    hold(
        &rt,
        &[
            (b"B\n0\n0\n1\n0\n1\n\n", 15, 7),
            (b"B\n0\n0\n1\n0\n1\n-5\n", 15, 7),
            (b"B\n0\n0\n1\n0\n1\n5 5\n", 15, 7),
            (b"B\n0\n0\n1\n0\n1\n007\n", 15, 7),
            (b"B\n0\n0\n1\n0\n1\nx\n", 15, 7),
            (b"B\n0\n0\n1\n0\n1\n5 \n", 15, 7),
            (b"B\n0\n0\n1\n0\n1\n 5\n", 15, 7),
            (b"B\n0\n0\n1\n0\n1\n5\r\n", 15, 7),
            (b"B\n0\n0\n1\n0\n1\n5\t\n", 15, 7),
            (b"B\n0\n0\n1\n0\n1\n5  5\n", 15, 7),
            (b"B\n0\n0\n1\n0\n1\n4294967296\n", 15, 7),
            (b"B\n0\n0\n1\n0\n1\n12345678901\n", 15, 7),
            (b"B\n0\n0\n1\n0\n3\n", 17, 6),
            (b"B\n0\n0\n1\n0\n2\n5\n05\n", 15, 8),
        ],
    )
}

// A call is its word, and the word's numbers.
#[test]
fn calls(rt: HostRuntime) -> Result<(), Fail> {
    hold(
        &rt,
        &[
            (b"B\n0\n0\n1\n0\n0\n1\n\n", 15, 8),
            (b"B\n0\n0\n1\n0\n0\n1\nchose 0 0\n", 15, 8),
            (b"B\n0\n0\n1\n0\n0\n1\nchoose\n", 15, 8),
            (b"B\n0\n0\n1\n0\n0\n1\nchoose 0\n", 15, 8),
            (b"B\n0\n0\n1\n0\n0\n1\nchoose 0 0 0\n", 15, 8),
            (b"B\n0\n0\n1\n0\n0\n1\nchoose  0 0\n", 15, 8),
            (b"B\n0\n0\n1\n0\n0\n1\nchoose 0 0 \n", 15, 8),
            (b"B\n0\n0\n1\n0\n0\n1\nchoose 0 00\n", 15, 8),
            (b"B\n0\n0\n1\n0\n0\n1\nchoose 4294967296 0\n", 15, 8),
            (b"B\n0\n0\n1\n0\n0\n1\nchoose\t0 0\n", 15, 8),
            (b"B\n0\n0\n1\n0\n0\n1\nChoose 0 0\n", 15, 8),
            (b"B\n0\n0\n1\n0\n0\n1\nback\n", 15, 8),
            (b"B\n0\n0\n1\n0\n0\n1\nback 1 2\n", 15, 8),
            (b"B\n0\n0\n1\n0\n0\n1\nback x\n", 15, 8),
            (b"B\n0\n0\n1\n0\n0\n1\nback 01\n", 15, 8),
            (b"B\n0\n0\n1\n0\n0\n1\nback 1 \n", 15, 8),
            (b"B\n0\n0\n1\n0\n0\n1\nback  1\n", 15, 8),
            (b"B\n0\n0\n1\n0\n0\n1\nback 1\r\n", 15, 8),
            (b"B\n0\n0\n1\n0\n0\n1\nback 4294967296\n", 15, 8),
            (b"B\n0\n0\n1\n0\n0\n1\nbacks 1\n", 15, 8),
            (b"B\n0\n0\n1\n0\n0\n1\nceiling\n", 15, 8),
            (b"B\n0\n0\n1\n0\n0\n1\nceiling 1 2\n", 15, 8),
            (b"B\n0\n0\n1\n0\n0\n1\nceiling 4294967296\n", 15, 8),
            (b"B\n0\n0\n1\n0\n0\n1\nceiling  1\n", 15, 8),
            (b"B\n0\n0\n1\n0\n0\n1\nceiling 01\n", 15, 8),
            (b"B\n0\n0\n1\n0\n0\n1\nceiling 12345678901\n", 15, 8),
            (b"B\n0\n0\n1\n0\n0\n1\nceiling\t1\n", 15, 8),
            (b"B\n0\n0\n1\n0\n0\n1\nceiling 1 \n", 15, 8),
            (b"B\n0\n0\n1\n0\n0\n1\nlift 0\n", 15, 8),
            (b"B\n0\n0\n1\n0\n0\n1\nlift \n", 15, 8),
            (b"B\n0\n0\n1\n0\n0\n1\nlifts\n", 15, 8),
            (b"B\n0\n0\n1\n0\n0\n1\nLift\n", 15, 8),
            (b"B\n0\n0\n1\n0\n0\n1\n lift\n", 15, 8),
            (b"B\n0\n0\n1\n0\n0\n1\nlift\r\n", 15, 8),
            (b"B\n0\n0\n1\n0\n0\n3\n", 17, 7),
        ],
    )
}

// The text ends right after its last line.
#[test]
fn ends(rt: HostRuntime) -> Result<(), Fail> {
    hold(
        &rt,
        &[
            (b"B\n0\n0\n1\n0\n0\n0", 16, 7),
            (b"B\n0\n0\n1\n0\n0\n0\n\n", 16, 8),
            (b"B\n0\n0\n1\n0\n0\n0\n0\n", 16, 8),
            (b"B\n0\n0\n1\n0\n0\n0\nx", 16, 8),
            (b"B\n0\n0\n1\n0\n0\n0\n ", 16, 8),
            (b"B\n0\n0\n1\n0\n0\n1\nlift", 16, 8),
            (b"B\n0\n0\n1\n0\n0\n1\nlift\n\n", 16, 9),
        ],
    )
}
