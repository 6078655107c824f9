// What a program lends to the catalogue that it is given: tables of fixed sizes, for a text of limited length.
ghost use Rattle.catalogue.specs.Content.{lent_of};
ghost use Rattle.catalogue.specs.Desk.{Taken};

use crate::entries::Contents;
use crate::tables::Tables;
use fault::Fault;

// The most bytes that a catalogue may have.
pub const LIMIT: usize = 16384;

// Tables for 24 features, 64 records of either form, 384 prices and 64 calls.
pub type DeskTables = Tables<24, 64, 384, 64>;

impl DeskTables {
    // Reads the catalogue that `text` is into these tables; a text of over 16,384 bytes is refused unread. One step a byte of
    // the text; nothing is allocated.
    pub fn take(&mut self, text: &[u8]) -> Result<Contents, Fault>
        ensures { Taken text.now (lent_of self.old) (lent_of self.new) result }
    {
        if text.len() > LIMIT {
            return Err(Fault::TableTooSmall { line: 0 });
        }
        self.read(text)
    }
}
