// What the forms of diagram differ in.
ghost use Rattle.std.specs.Prelude.{◌≡◌, ℕ, ◌≤◌, List, [], length, Decides, Option};
ghost use Rattle.book.specs.Books.{BookLaws};
ghost use Rattle.node.specs.Forms.{Form, Well, book_of};

use crate::rule_book::Diagram;
use crate::sized::SizedTable;
use crate::table::Table;

// A record of one form of diagram: what is asked of it, and how a walk steps from it. An index, of type I, is what is worked
// out of the value counts once, so that no step has to: a parameter, since a struct that holds an associated type is not
// `Copy`. The trait is for this crate alone: it stands in a private module.
pub trait Node<I: Copy>: Copy {
    // What is asked of the records and of the start link.
    ghost form: { Form Self };

    // The index is that of the value counts.
    ghost indexed: { List ℕ → I → Type 0 };

    // The step of a walk: from value counts, records, feature, place and value.
    ghost step: { List ℕ → List Self → ℕ → ℕ → ℕ → Option ℕ };

    // Which full sets a table permits: value counts, records, start link and set.
    ghost permits: { List ℕ → List Self → ℕ → List ℕ → Type 0 };

    // Two facts that a rule book holds for good hold in one way only. They are no laws, since no struct could cite a law.
    ghost well_once: { (ds : List ℕ) (rs : List Self) (start : ℕ) → IsProp (Well form ds rs start) };

    ghost indexed_once: { (ds : List ℕ) (x : I) → IsProp (indexed ds x) };

    // The index of the value counts. One step a feature at most.
    fn index(counts: &[u32]) -> I
        requires { length counts.now ≤ 24 }
        ensures { indexed counts.now result };

    // Whether what the record tests exists. Constant time.
    fn exists(&self, sized: &SizedTable<'_, Self, I>) -> bool
        ensures { Decides result (form.exists sized.now.table.counts.now self.now) };

    // Whether both links are allowed. Constant time.
    fn linked(&self, table: &Table<'_, Self>) -> bool
        ensures { Decides result (form.linked table.now.counts.now table.now.records.now self.now) };

    // Whether the start link is allowed. Constant time.
    fn starts(table: &Table<'_, Self>) -> bool
        ensures { Decides result (form.starts table.now.records.now table.now.start) };

    // The place after this value of this feature. At most one step a bit, or a value, of the feature: 4 or
    // 16 at most.
    fn step(
        diagram: &Diagram<'_, Self, I>,
        feature: usize,
        place: usize,
        value: usize,
    ) -> Option<usize>
        ensures { result ≡ step diagram.now.counts.now diagram.now.records.now feature place value };

    // False is allowed as the start of a table with no record.
    ghost false_starts: { form.starts [] 0 };

    // A table for which all questions are answered by yes keeps the laws of a rule book.
    ghost lawful: { (ds : List ℕ) (rs : List Self) (start : ℕ) → Well form ds rs start → BookLaws (book_of step ds rs start) (permits ds rs start) };
}
