// A diagram that passed its check.
ghost use Rattle.std.specs.Prelude.{◌≡◌, [], ◌∷◌, ⊤};
ghost use Rattle.node.specs.Forms.{Well};
ghost use Rattle.diagram_books.specs.Tables.{table};

use crate::forms::Node;
use std::alloc::AllocError;

// The rule book of a table. Every value of this type holds a table for which all questions are answered by yes, and the
// index of its value counts. The fields are those of a table but for its source, which no step needs.
#[derive(Copy)]
pub struct Diagram<'a, N: Node<I>, I: Copy> {
    pub(crate) counts: &'a [u32],
    pub(crate) records: &'a [N],
    pub(crate) start: u32,
    pub(crate) index: I,
    pub ghost well: { Well N.form counts.now records.now start } by { N.well_once counts.now records.now start },
    ghost known: { N.indexed counts.now index } by { N.indexed_once counts.now index },
}

// A copy is the same rule book. By hand: no derive gives `Clone` to a struct with type parameters and ghost fields.
impl<'a, N: Node<I>, I: Copy> Clone for Diagram<'a, N, I> {
    ghost is_infallible = { λ _. ⊤ };

    ghost is_clone = { λ b copy. copy ≡ b };

    fn clone(&self) -> Result<Self, AllocError> {
        Ok(Diagram {
            counts: self.counts,
            records: self.records,
            start: self.start,
            index: self.index,
        })
    }
}

impl<N: Node<I>, I: Copy> Diagram<'static, N, I> {
    // A rule book that permits nothing, for whoever wants one where a table was refused: one feature of one value, no record,
    // and the start false. Constant time.
    pub fn nothing() -> Diagram<'static, N, I>
        ensures { table result.counts.now result.records.now result.start ≡ table (1 ∷ []) [] 0 }
    {
        Diagram {
            counts: &[1],
            records: &[],
            start: 0,
            index: N::index(&[1]),
        }
    }
}
