// Which link stands at a place of a rising table, and which place comes next.
ghost use Rattle.std.specs.Prelude.{◌≡◌};
ghost use Rattle.answering.specs.LinkAt.{link_at, place_after};

// A link that leaves a recording: its place among the triples, its label and its end.
#[derive(Clone, Copy, Debug, PartialEq, Eq)]
pub(super) struct Link {
    pub(super) at: usize,
    pub(super) label: usize,
    pub(super) end: usize,
}

// The link at the place, where one that leaves x stands there.
pub(super) fn link_at(table: &[u16], at: usize, x: u64) -> Option<Link>
    ensures { result ≡ link_at table.now at x }
{
    if at < table.len() / 3 && u64::from(table[3 * at]) == x {
        let label = usize::from(table[3 * at + 1]);
        let end = usize::from(table[3 * at + 2]);
        Some(Link { at, label, end })
    } else {
        None
    }
}

// The place after that of a triple; where no triple stands, the same place.
pub(super) fn place_after(table: &[u16], at: usize) -> usize
    ensures { result ≡ place_after table.now at }
{
    if at < table.len() / 3 { at + 1 } else { at }
}
