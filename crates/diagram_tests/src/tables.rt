// Tables, and what a check answers.
use book::{RuleBook, is_full, is_permitted};
use diagram::{BitNode, ColumnNode};
use fault::Fault;
use std::process::Abort;
use std::test::Fail;

pub(crate) fn bit(bit: u32, low: u32, high: u32) -> BitNode {
    BitNode { bit, low, high }
}

pub(crate) fn column(column: u32, value: u32, high: u32, low: u32) -> ColumnNode {
    ColumnNode {
        column,
        value,
        high,
        low,
    }
}

// Holds a book to what the example permits: each full set but those of size 2 with finish 1.
pub(crate) fn holds_example<B: RuleBook>(rt: &impl Abort, book: &B) {
    for size in 0..3 {
        for finish in 0..2 {
            for card in 0..2 {
                let set = [size, finish, card];
                assert!(rt; is_full(book, &set));
                assert_eq!(rt; is_permitted(book, &set), size < 2 || finish == 0);
            }
        }
    }
}

// Holds an outcome to a refusal with this number, place and line. The tests of catalogues have one of their own, since what
// is compiled for tests alone no other crate can use.
pub(crate) fn refused<T: Drop>(
    rt: &impl Abort,
    outcome: Result<T, Fault>,
    number: u32,
    place: usize,
    line: usize,
) -> Result<(), Fail> {
    let Err(fault) = outcome else {
        return Err(Fail::new("accepted"));
    };
    assert_eq!(rt; fault.number(), number);
    assert_eq!(rt; fault.place(), place);
    assert_eq!(rt; fault.line(), line);
    Ok(())
}
