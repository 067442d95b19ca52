// What a deterministic automaton reaches over a table from one recording, by ranks: only states that are kept are followed.
ghost use Rattle.std.specs.Prelude.{◌≡◌, ◌*◌, ◌≤◌};
ghost use Rattle.answering.specs.StateSearch.{StatesSearched};

use super::indexed::Indexed;
use super::ranked::Ranked;
use super::set_search::search_sets;
use super::state_sets::put_rows;

// The search, with ROOM words for the next states. Each size stands apart, so that its room is on the stack only while it runs.
#[inline(never)]
fn search_in<const ROOM: usize>(
    ranked: Ranked<'_>,
    links: Indexed<'_>,
    start: u64,
    reached: &mut [u64],
)
    requires { (ranked.lists ≡ links.symbols) × (ranked.words * (ranked.lists * ranked.count) ≤ ROOM) × (ROOM ≤ 16384) }
    ensures { let R = ranked.entry in StatesSearched R.next.now R.lists R.states R.words R.ranks.now R.kept.now R.count
        links.entry.table.now links.entry.recordings start reached.old reached.new }
{
    let mut sets: [u64; ROOM] = [0; ROOM];
    put_rows(ranked, &mut sets);
    search_sets(
        &sets,
        ranked.words as u64,
        ranked.count as u64,
        links,
        start,
        reached,
    );
}

// All recordings that are reached from the start in state 0, with the ranks of the states that they are reached in, as bits of the first
// words × recordings words, where `words` is as many as the ranks need. 256 words for the next states are zeroed sooner than those for all
// automata, of at most 256 states over 16 lists, which take 128 KiB of the thread's stack.
pub(super) fn search_states(ranked: Ranked<'_>, links: Indexed<'_>, start: u64, reached: &mut [u64])
    requires { ranked.lists ≡ links.symbols }
    ensures { let R = ranked.entry in StatesSearched R.next.now R.lists R.states R.words R.ranks.now R.kept.now R.count
        links.entry.table.now links.entry.recordings start reached.old reached.new }
{
    if ranked.words * (ranked.lists * ranked.count) <= 256 {
        search_in::<256>(ranked, links, start, reached);
    } else {
        search_in::<16384>(ranked, links, start, reached);
    }
}
