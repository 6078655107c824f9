// What both forms of diagram have in common.
ghost use Rattle.std.specs.Prelude.{◌≡◌, slice_index};
ghost use Rattle.node.specs.Forms.{place_of_link};
ghost use Rattle.diagram_books.specs.Links.{number_of};

// Where a link leads.
#[derive(Clone, Copy)]
pub(crate) enum Link {
    False,
    True,
    // The record of this index.
    Record(usize),
}

impl Link {
    // The link that this number is. Constant time.
    pub(crate) fn of(number: usize) -> Link
        ensures { number_of result ≡ number }
    {
        match number {
            0 => Link::False,
            1 => Link::True,
            _ => Link::Record(number - 2),
        }
    }
}

// The place that a link is; none for false. Constant time.
pub(crate) fn place_of(link: usize) -> Option<usize>
    ensures { result ≡ place_of_link link }
{
    match Link::of(link) {
        Link::False => None,
        Link::True | Link::Record(_) => Some(link),
    }
}

// How many values a feature has; 0 where there is no such feature. Constant time.
pub(crate) fn value_count(counts: &[u32], feature: usize) -> usize
    ensures { result ≡ slice_index counts.now feature }
{
    counts.get(feature).map_or(0, |count| *count as usize)
}
