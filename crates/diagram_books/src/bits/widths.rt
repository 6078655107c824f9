// How many bits a feature has, and where they begin.
ghost use Rattle.std.specs.Prelude.{◌≡◌, ◌≤◌, length};
ghost use Rattle.node.specs.Bits.{Fewest, width_of};
ghost use Rattle.diagram_books.specs.Bases.{Based};

// How many bits a feature of 1 to 16 values has: the fewest that tell them apart. Constant time.
pub fn bit_width(values: u32) -> usize
    ensures number { result ≡ width_of values }
    ensures fewest { 1 ≤ values → values ≤ 16 → Fewest values result }
{
    match values {
        0 | 1 => 0,
        2 => 1,
        3..=4 => 2,
        5..=8 => 3,
        _ => 4,
    }
}

// The number of the first bit of each feature, and behind the last that of all bits. One step a feature. The place is
// written by its index, since nothing is proved of what `bases.iter_mut().skip(1).zip(counts)` leaves behind.
pub(crate) fn bit_bases(counts: &[u32]) -> [usize; 25]
    requires { length counts.now ≤ 24 }
    ensures { Based counts.now result }
{
    let mut bases = [0; 25];
    let mut base = 0;
    for (i, count) in counts.iter().enumerate() {
        base += bit_width(*count);
        bases[i + 1] = base;
    }
    bases
}
