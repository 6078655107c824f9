// Reads a text with the program's own tables.
ghost use Rattle.counter.specs.Surveys.{Surveyed};

use catalogue::desk::DeskTables;
use catalogue::entries::Contents;
use fault::Fault;

// What a catalogue of at most 16,384 bytes says, or why it is refused. There are tables for 24 features, 64 records of
// either form, 384 prices and 64 calls. One step a byte of the text; nothing is allocated.
pub fn survey(text: &[u8]) -> Result<Contents, Fault>
    ensures { Surveyed text.now result }
{
    DeskTables::blank().take(text)
}

#[cfg(test)]
mod tests {
    use super::survey;
    use fault::report::Report;
    use std::alloc::Global;
    use std::process::Abort;
    use std::test::Fail;

    // What the program prints of a text.
    fn hold(rt: &impl Abort, heap: Global, text: &[u8], printed: &str) -> Result<(), Fail> {
        let report = Report {
            found: survey(text),
        };
        assert_eq!(rt; report.to_string(heap)?.as_str(), printed);
        Ok(())
    }

    // A text of 16,384 bytes is read, and refused for what it says; one more is refused unread.
    #[test]
    fn limit(rt: HostRuntime) -> Result<(), Fail> {
        hold(&rt, rt.alloc(), &[b'B'; 16384], "fault 16 file 0 1")?;
        hold(&rt, rt.alloc(), &[b'B'; 16385], "fault 17 file 0 0")
    }

    // One feature more than there is room for; a line that is wrong; a column catalogue.
    #[test]
    fn prints(rt: HostRuntime) -> Result<(), Fail> {
        hold(&rt, rt.alloc(), b"B\n25\n", "fault 17 file 0 2")?;
        hold(&rt, rt.alloc(), b"B\n0\n65\n", "fault 17 file 0 3")?;
        hold(&rt, rt.alloc(), b"B\n1\nA 1\n", "fault 15 file 0 3")?;
        hold(
            &rt,
            rt.alloc(),
            b"C\n1\na 1\n1\n0 0 1 0\n1\n2\n1\n5\n1\nlift\n",
            "kind C\nfeatures 1\nrecords 1\nprices 1\ncalls 1",
        )
    }
}
