// Rule books: which full sets of values are permitted, and how a set is walked through a book place by place.
#![tactic(auto)]

ghost use Rattle.std.specs.Prelude.{◌≡◌, ℕ, ◌<◌, List, Decides};
ghost use Rattle.book.specs.Books.{Book, BookLaws, FullSet, walk_of};

// Says which full sets (one value for every feature) are permitted. A *place* is where a walk through the book can stand
// before a feature: the values so far, as far as the later ones care. Asking changes nothing, and the same question has
// the same answer each time, since each answer is a function of the book.
pub trait RuleBook {
    // The answers of the book: features, values, places, start and step.
    ghost book: { Self → Book };

    // Which full sets the book permits, by its own meaning and not by its walk.
    ghost permits: { Self → List ℕ → Type 0 };

    // How many features there are, 1 to 24.
    fn features(&self) -> usize
        ensures { result ≡ (book self.now).features };

    // How many values a feature has, 1 to 16; 0 where there is no such feature, and no Option, so that no value is below it.
    fn values(&self, feature: usize) -> usize
        ensures { result ≡ (book self.now).values feature };

    // How many places there are, 1 to 2,048.
    fn places(&self) -> usize
        ensures { result ≡ (book self.now).places };

    // The place of a walk before feature 0; none where nothing is permitted from the start.
    fn start(&self) -> Option<usize>
        ensures { result ≡ (book self.now).start };

    // The place after this value of this feature, from a place before it; none where the walk stops, and where feature,
    // place or value do not exist.
    fn step(&self, feature: usize, place: usize, value: usize) -> Option<usize>
        ensures { result ≡ (book self.now).step feature place value };

    // The sizes and ranges of the answers; a full set is permitted exactly when its walk never meets none.
    ghost laws: { (b : Self) → BookLaws (book b) (permits b) };
}

// Walks a set from the start, one step a feature in order: where the walk ends, or none where it met none. One step of the
// book a value. A loop, since `try_fold` takes as many lines, and an answer that the loop does not need.
#[tactic(auto, using(crate::proofs::Walks::walk_more))]
pub fn walk<B: RuleBook>(book: &B, set: &[usize]) -> Option<usize>
    ensures { result ≡ walk_of (B.RuleBook.book book.now) set.now }
{
    let mut place = book.start()?;
    for (feature, value) in set.iter().enumerate() {
        place = book.step(feature, place, *value)?;
    }
    Some(place)
}

// Whether the set has one value for every feature. One question to the book a value.
pub fn is_full<B: RuleBook>(book: &B, set: &[usize]) -> bool
    ensures { Decides result (FullSet (B.RuleBook.book book.now) set.now) }
{
    set.len() == book.features()
        && set
            .iter()
            .enumerate()
            .all(|(feature, value)| *value < book.values(feature))
}

// Whether the set is a full set that the book permits. Two questions to the book a value.
pub fn is_permitted<B: RuleBook>(book: &B, set: &[usize]) -> bool
    ensures { Decides result (FullSet (B.RuleBook.book book.now) set.now × B.RuleBook.permits book.now set.now) }
{
    is_full(book, set) && walk(book, set).is_some()
}
