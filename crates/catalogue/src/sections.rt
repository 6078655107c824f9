// A section: a line with a count, and that many lines, each an entry of the table that is lent for it.
ghost use Rattle.std.specs.Prelude.{◌⊎◌, length, MatchResult};
ghost use Rattle.catalogue.specs.Forms.{number_form};
ghost use Rattle.text.specs.Lines.{rest};
ghost use Rattle.text.specs.Layouts.{Refused};
ghost use Rattle.catalogue.specs.Sections.{line_layout, Entered, Counted, Crowded, Section, NoSection};

use crate::rows::Row;
use fault::Fault;
use text::reader::Reader;

// The entry of the next line. One step a byte of it.
pub(crate) fn entry<R: Row>(reader: &mut Reader<'_>) -> Result<R, Fault>
    ensures { MatchResult result
        (λ e. Entered R.form reader.old reader.new e)
        (λ f. Refused (line_layout R.form) reader.old.line (rest reader.old) f) }
{
    R::row(reader.line()?)
}

// The count of a section whose table has room for so many entries.
fn count(reader: &mut Reader<'_>, room: usize) -> Result<usize, Fault>
    ensures { MatchResult result
        (λ n. Counted room reader.old reader.new n)
        (λ f. Refused (line_layout number_form) reader.old.line (rest reader.old) f ⊎ Crowded room reader.old f) }
{
    // `as`, since there is no `From<u32>` for `usize`.
    let n = entry::<u32>(reader)? as usize;
    if n > room {
        return Err(Fault::TableTooSmall { line: reader.line });
    }
    Ok(n)
}

// A whole section into its table; answers how many entries it has. One step a byte of the section.
pub(crate) fn section<R: Row>(reader: &mut Reader<'_>, table: &mut [R]) -> Result<usize, Fault>
    ensures { MatchResult result
        (λ n. Section R.form reader.old reader.new table.old table.new n)
        (λ f. NoSection R.form reader.old table.old table.new f) }
{
    let n = count(reader, table.len())?;
    for slot in &mut table[..n] {
        *slot = entry(reader)?;
    }
    Ok(n)
}
