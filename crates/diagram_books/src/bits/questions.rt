// What is asked of a record of a bit diagram, and how a walk steps.
ghost use Rattle.node.specs.Bits.{Reaches, bit_form, bit_of, bit_step};
ghost use Rattle.diagram_books.specs.Bases.{Based};
ghost use Rattle.diagram_books.specs.BitBooks.{bit_well_once, based_once, bit_false_starts, bit_lawful};

use crate::bits::follow::{comes, follow_bits, may_stand};
use crate::bits::widths::bit_bases;
use crate::bits::{BitDiagram, BitTable};
use crate::forms::Node;
use crate::links::{place_of, value_count};
use crate::sized::SizedTable;
use diagram::BitNode;

impl Node<[usize; 25]> for BitNode {
    ghost form = { bit_form };

    ghost indexed = { Based };

    ghost step = { bit_step };

    ghost permits = { λ ds rs start xs. Reaches rs (bit_of ds xs) start };

    ghost well_once = { bit_well_once };

    ghost indexed_once = { based_once };

    ghost false_starts = { bit_false_starts };

    ghost lawful = { bit_lawful };

    fn index(counts: &[u32]) -> [usize; 25] {
        bit_bases(counts)
    }

    fn exists(&self, sized: &SizedTable<'_, BitNode, [usize; 25]>) -> bool {
        let bits = sized.index[sized.table.counts.len()];
        (self.bit as usize) < bits
    }

    fn linked(&self, table: &BitTable<'_>) -> bool {
        let later = self.bit as usize + 1;
        comes(table.records, later, self.low as usize)
            && comes(table.records, later, self.high as usize)
    }

    fn starts(table: &BitTable<'_>) -> bool {
        comes(table.records, 0, table.start as usize)
    }

    fn step(diagram: &BitDiagram<'_>, feature: usize, place: usize, value: usize) -> Option<usize> {
        let records = diagram.records;
        if value >= value_count(diagram.counts, feature) {
            return None;
        }
        let base = diagram.index[feature];
        if !may_stand(records, base, place) {
            return None;
        }
        let end = diagram.index[feature + 1];
        place_of(follow_bits(records, base, end, value, place))
    }
}
