// A checked diagram as a rule book.
ghost use Rattle.node.specs.Forms.{book_of};

use crate::forms::Node;
use crate::links::{place_of, value_count};
use crate::rule_book::Diagram;
use book::RuleBook;

impl<'a, N: Node<I>, I: Copy> RuleBook for Diagram<'a, N, I> {
    ghost book = { λ b. book_of N.step b.counts.now b.records.now b.start };

    ghost permits = { λ b. N.permits b.counts.now b.records.now b.start };

    ghost laws = { λ b. N.lawful b.counts.now b.records.now b.start b.well };

    // Constant time.
    fn features(&self) -> usize {
        self.counts.len()
    }

    // Constant time.
    fn values(&self, feature: usize) -> usize {
        value_count(self.counts, feature)
    }

    // Constant time.
    fn places(&self) -> usize {
        self.records.len() + 2
    }

    // Constant time.
    fn start(&self) -> Option<usize> {
        place_of(self.start as usize)
    }

    // At most one step a bit, or a value, of the feature: 4 or 16 at most.
    fn step(&self, feature: usize, place: usize, value: usize) -> Option<usize> {
        N::step(self, feature, place, value)
    }
}
