// The tables of a catalogue, together.
ghost use Rattle.std.specs.Prelude.{◌≡◌};
ghost use Rattle.catalogue.specs.Content.{lent_of, blank_tables};
ghost use Rattle.catalogue.specs.Whole.{Judged};

use crate::entries::{Call, Contents, Feature};
use crate::whole::read;
use diagram::{BitNode, ColumnNode};
use fault::Fault;

// A table for each section, with room for so many entries. The records have two, of which a catalogue fills the one of its
// kind: a walk then reads plain fields, and tells no case apart at each step.
#[derive(Drop)]
pub struct Tables<
    const FEATURES: usize,
    const RECORDS: usize,
    const PRICES: usize,
    const CALLS: usize,
> {
    pub features: [Feature; FEATURES],
    pub bits: [BitNode; RECORDS],
    pub columns: [ColumnNode; RECORDS],
    pub prices: [u32; PRICES],
    pub calls: [Call; CALLS],
}

impl<const FEATURES: usize, const RECORDS: usize, const PRICES: usize, const CALLS: usize> Tables<
    FEATURES,
    RECORDS,
    PRICES,
    CALLS,
> {
    // Tables of zeros, in which each call is a lift. One step an entry.
    pub fn blank() -> Self
        ensures { lent_of result ≡ blank_tables FEATURES RECORDS PRICES CALLS }
    {
        Tables {
            features: [Feature {
                place: 0,
                length: 0,
                values: 0,
            }; FEATURES],
            bits: [BitNode {
                bit: 0,
                low: 0,
                high: 0,
            }; RECORDS],
            columns: [ColumnNode {
                column: 0,
                value: 0,
                high: 0,
                low: 0,
            }; RECORDS],
            prices: [0; PRICES],
            calls: [Call::Lift; CALLS],
        }
    }

    // Reads the catalogue that `text` is into these tables. One step a byte of the text; nothing is allocated.
    pub fn read(&mut self, text: &[u8]) -> Result<Contents, Fault>
        ensures { Judged text.now (lent_of self.old) (lent_of self.new) result }
    {
        read(
            text,
            &mut self.features,
            &mut self.bits,
            &mut self.columns,
            &mut self.prices,
            &mut self.calls,
        )
    }
}
