// The bits of one feature, from a place.
ghost use Rattle.std.specs.Prelude.{◌≡◌, ◌+◌, ◌≤◌, Decides};
ghost use Rattle.node.specs.Bits.{Comes, Ordered, follow, opens};

use crate::links::Link;
use diagram::BitNode;

// Whether a link leads to 0, to 1, or to a record whose bit is this one or a later one. Constant time.
pub(crate) fn comes(records: &[BitNode], bit: usize, link: usize) -> bool
    ensures { Decides result (Comes records.now bit link) }
{
    match Link::of(link) {
        Link::False | Link::True => true,
        Link::Record(r) => records.get(r).is_some_and(|node| bit <= node.bit as usize),
    }
}

// Whether a walk may stand at the link before this bit: it is 1, or a record of no earlier bit. Constant time.
pub(crate) fn may_stand(records: &[BitNode], bit: usize, link: usize) -> bool
    ensures { result ≡ opens records.now bit link }
{
    match Link::of(link) {
        Link::False => false,
        Link::True | Link::Record(_) => comes(records, bit, link),
    }
}

// Where the bits from `base` to before `end` lead from the link: bit base + j of the value has weight 2^j. One step a bit.
pub(crate) fn follow_bits(
    records: &[BitNode],
    base: usize,
    end: usize,
    value: usize,
    place: usize,
) -> usize
    requires linked { Ordered records.now }
    requires stands { Comes records.now base place }
    requires order { base ≤ end }
    requires few { end ≤ base + 4 }
    ensures { result ≡ follow records.now base end value place }
{
    let mut link = place;
    while let Link::Record(r) = Link::of(link) {
        let record = records[r];
        let bit = record.bit as usize;
        if bit >= end {
            break;
        }
        let high = (value >> (bit - base)) % 2 == 1;
        link = if high {
            record.high as usize
        } else {
            record.low as usize
        };
    }
    link
}
