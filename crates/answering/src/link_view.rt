// The links that leave one recording are read from the lent numbers (document 01): a view borrows the triples and holds a place among them.
// `at` makes it; `current` and `moved` take it apart and leave the work to a function on the slice and the place. The search calls
// `leaving_at` and `next_leaving`, which have plain parameters.
ghost use Rattle.std.specs.Prelude.{◌≡◌};
ghost use Rattle.answering.specs.LinkAt.{link_at, place_after};
ghost use Rattle.answering.specs.LinkView.{view_at, current, moved};

use super::links::{Link, link_at, place_after};

#[derive(Clone, Copy)]
pub(super) struct LinkView<'a> {
    pub(super) table: &'a [u16],
    pub(super) at: usize,
}

impl<'a> LinkView<'a> {
    // The view of the triples at a place.
    fn at(table: &'a [u16], place: usize) -> LinkView<'a>
        ensures { result ≡ view_at table.entry place }
    {
        LinkView { table, at: place }
    }

    // The link at the view's place, where it leaves x.
    fn current(self, x: u64) -> Option<Link>
        ensures { result ≡ current self.entry x }
    {
        link_at(self.table, self.at, x)
    }

    // The view at the place after.
    fn moved(self) -> LinkView<'a>
        ensures { result ≡ moved self.entry }
    {
        LinkView {
            table: self.table,
            at: place_after(self.table, self.at),
        }
    }
}

// The link at a place, where it leaves x.
pub(super) fn leaving_at(table: &[u16], place: usize, x: u64) -> Option<Link>
    ensures { result ≡ link_at table.now place x }
{
    LinkView::at(table, place).current(x)
}

// The next link that leaves x, behind the one at a place.
pub(super) fn next_leaving(table: &[u16], place: usize, x: u64) -> Option<Link>
    ensures { result ≡ link_at table.now (place_after table.now place) x }
{
    LinkView::at(table, place).moved().current(x)
}
