// A whole catalogue.
ghost use Rattle.catalogue.specs.Content.{lent};
ghost use Rattle.catalogue.specs.Whole.{Judged};

use crate::entries::{Call, Contents, Feature, Kind, One};
use crate::sections::{entry, section};
use diagram::{BitNode, ColumnNode};
use fault::Fault;
use text::reader::Reader;

// Reads the catalogue that `text` is into the tables that are lent, or says where `text` stops being one. Of the two
// tables of records, the one that line 1 asks for is filled. One step a byte of the text; nothing is allocated.
// Each table is a slice of its own, by a rule of the project; `Tables` holds all five of them.
pub fn read(
    text: &[u8],
    features: &mut [Feature],
    bits: &mut [BitNode],
    columns: &mut [ColumnNode],
    prices: &mut [u32],
    calls: &mut [Call],
) -> Result<Contents, Fault>
    ensures { Judged text.now
        (lent features.old bits.old columns.old prices.old calls.old)
        (lent features.new bits.new columns.new prices.new calls.new) result }
{
    let mut reader = Reader::new(text);
    let kind = entry::<Kind>(&mut reader)?;
    let feature_count = section(&mut reader, features)?;
    // the two tables are of two types, so that a match picks one, and no closure could
    let record_count = match kind {
        Kind::Bit => section(&mut reader, bits)?,
        Kind::Column => section(&mut reader, columns)?,
    };
    entry::<One>(&mut reader)?;
    let start = entry::<u32>(&mut reader)?;
    let price_count = section(&mut reader, prices)?;
    let call_count = section(&mut reader, calls)?;
    reader.end()?;
    Ok(Contents {
        kind,
        features: feature_count,
        records: record_count,
        start,
        prices: price_count,
        calls: call_count,
    })
}
