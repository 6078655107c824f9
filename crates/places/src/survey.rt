// Reads a text with tables of the program's sizes, and checks the diagram that it holds.
ghost use Rattle.places.specs.Surveys.{Surveyed};

use crate::judge::judge;
use catalogue::desk::DeskTables;
pub use catalogue::desk::LIMIT;
use fault::Fault;

// How many places the rule book of a catalogue has, or why the catalogue is refused: by the reader, whose text has at most
// 16,384 bytes, or by the check of its table. There are tables for 24 features, 64 records of either form, 384 prices and
// 64 calls. One step a byte of the text, a feature and a record; nothing is allocated.
pub fn survey(text: &[u8]) -> Result<usize, Fault>
    ensures { Surveyed text.now result }
{
    let mut tables = DeskTables::blank();
    let contents = tables.take(text)?;
    judge(&contents, &tables)
}

#[cfg(test)]
mod tests {
    use super::survey;
    use crate::report::PlaceCount;
    use fault::report::Report;
    use std::alloc::Global;
    use std::process::Abort;
    use std::test::Fail;

    // What a report prints of a text; as in the tests of `counter`, which this crate cannot see.
    fn hold(rt: &impl Abort, heap: Global, text: &[u8], printed: &str) -> Result<(), Fail> {
        let report = Report {
            found: survey(text).map(PlaceCount),
        };
        assert_eq!(rt; report.to_string(heap)?.as_str(), printed);
        Ok(())
    }

    // A text of 16,384 bytes is read, and refused for what it says; one more is refused unread.
    #[test]
    fn limit(rt: HostRuntime) -> Result<(), Fail> {
        hold(&rt, rt.alloc(), &[b'B'; 16384], "fault 16 file 0 1")?;
        hold(&rt, rt.alloc(), &[b'B'; 16385], "fault 17 file 0 0")
    }

    // What the reader refuses: one feature, or record, more than there is room for, and a line that is wrong; it comes
    // before what the check would say of the same text.
    #[test]
    fn unread(rt: HostRuntime) -> Result<(), Fail> {
        hold(&rt, rt.alloc(), b"B\n25\n", "fault 17 file 0 2")?;
        hold(&rt, rt.alloc(), b"B\n0\n65\n", "fault 17 file 0 3")?;
        hold(&rt, rt.alloc(), b"B\n1\nA 1\n", "fault 15 file 0 3")?;
        hold(
            &rt,
            rt.alloc(),
            b"B\n0\n0\n1\n0\n0\n0\n9\n",
            "fault 16 file 0 8",
        )
    }

    // The places are those of the records and two more, for both kinds.
    #[test]
    fn places(rt: HostRuntime) -> Result<(), Fail> {
        hold(
            &rt,
            rt.alloc(),
            b"C\n1\na 1\n1\n0 0 1 0\n1\n2\n1\n5\n1\nlift\n",
            "places at most 3",
        )?;
        hold(
            &rt,
            rt.alloc(),
            b"B\n1\na 3\n0\n1\n1\n0\n0\n",
            "places at most 2",
        )?;
        hold(
            &rt,
            rt.alloc(),
            b"C\n1\na 3\n0\n1\n0\n0\n0\n",
            "places at most 2",
        )
    }

    // What the check refuses, with the line where the entry stands.
    #[test]
    fn unfit(rt: HostRuntime) -> Result<(), Fail> {
        for (text, printed) in [
            ("B\n0\n0\n1\n0\n0\n0\n", "fault 1 table 0 2"),
            ("B\n2\na 1\nb 17\n0\n1\n0\n0\n0\n", "fault 1 table 1 4"),
            ("C\n1\na 0\n0\n1\n0\n0\n0\n", "fault 1 table 0 3"),
            (
                "B\n1\na 2\n2\n0 0 1\n1 0 1\n1\n2\n0\n0\n",
                "fault 3 table 1 6",
            ),
            (
                "B\n1\na 4\n2\n0 3 1\n0 0 1\n1\n2\n0\n0\n",
                "fault 4 table 0 5",
            ),
            ("B\n1\na 4\n1\n0 0 1\n1\n3\n0\n0\n", "fault 5 table 0 7"),
            (
                "C\n2\na 2\nb 2\n1\n2 0 1 0\n1\n2\n0\n0\n",
                "fault 3 table 0 6",
            ),
            (
                "C\n1\na 2\n2\n0 0 1 3\n0 1 0 0\n1\n2\n0\n0\n",
                "fault 4 table 1 6",
            ),
            ("C\n1\na 2\n1\n0 0 1 0\n1\n1\n0\n0\n", "fault 5 table 0 7"),
        ] {
            hold(&rt, rt.alloc(), text.as_bytes(), printed)?;
        }
        Ok(())
    }
}
