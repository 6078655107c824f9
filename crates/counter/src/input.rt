// Takes in what the program is given, no further than it will look at it.
ghost use Rattle.std.specs.Prelude.{◌≡◌};

use catalogue::desk::LIMIT;
use std::alloc::Global;
use std::io;
use std::io::Read;

// How many bytes are taken in at most: one more than a catalogue may have, so that a longer input is seen to be one.
fn most() -> u64
    ensures { result ≡ 16385 }
{
    LIMIT as u64 + 1
}

// The bytes of an input up to `most`. One step a byte. No contract can say what an input holds; the tests do.
pub(crate) fn load<R: Read + Drop>(input: R, heap: Global) -> io::Result<Vec<u8>> {
    let mut bytes = Vec::new(heap);
    input.take(most()).read_to_end(&mut bytes)?;
    Ok(bytes)
}

#[cfg(test)]
mod tests {
    use super::load;
    use std::test::Fail;

    const LONG: [u8; 20000] = [b'B'; 20000];

    // An input up to the limit is taken in whole, and of a longer one just so much that it is seen to be too long.
    #[test]
    fn loads(rt: HostRuntime) -> Result<(), Fail> {
        assert_eq!(rt; load(&LONG[0..0], rt.alloc())?.len(), 0);
        assert_eq!(rt; load(&LONG[0..16384], rt.alloc())?.len(), 16384);
        assert_eq!(rt; load(&LONG[0..16385], rt.alloc())?.len(), 16385);
        assert_eq!(rt; load(&LONG[0..20000], rt.alloc())?.len(), 16385);
        Ok(())
    }
}
