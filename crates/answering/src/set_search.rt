// What an automaton reaches over a table, from one recording: for each recording the set of states that it is reached in. The automaton may
// have several next states for a state and a symbol; they are given by words, so that links are followed from all states at once.
ghost use Rattle.std.specs.Prelude.{◌+◌, ◌*◌, ◌<◌, ◌≤◌, length};
ghost use Rattle.answering.specs.Links.{FirstLink, InRange};
ghost use Rattle.answering.specs.LinkBegins.{LinkBegins};
ghost use Rattle.answering.specs.Pairs.{Has};
ghost use Rattle.answering.specs.Grown.{Ready};
ghost use Rattle.answering.specs.SetSearch.{Steps, SetFitting, SetSearched};
ghost use Rattle.answering.specs.SetSteps.{Spreading, Spread, StatesAdded, RowFollowed, RowsFollowed};
ghost use Rattle.answering.specs.SetSearchRun.{SetBeginning, ImagesBlank, SetStarting, SetAllFound};

use super::indexed::Indexed;
use super::link_view::{LinkView, leaving_at, next_leaving};
use super::pairs::{any_from, next_state, put, zero_from};
use super::rows::{brings, unite, unite_new};
use super::sizes::Sizes;
use super::step_rows::StepRows;
use super::turned_search::{search_turned, turnable};
use super::word_search::follow_all_words;
use finding::clear::clear;

// The next states, over each symbol, of all states that are pending at the recording x.
fn spread(sets: &[u64], sizes: Sizes, x: usize, pending: &[u64], images: &mut [u64])
    requires { Spreading sizes.words sizes.symbols sizes.states sets.now x pending.now images.old }
    ensures { Spread sizes.words sizes.symbols (Steps sets.now sizes.symbols sizes.words) x sizes.states
        pending.now (Has sizes.words images.new) }
{
    let row = sizes.words * sizes.symbols;
    zero_from(images, 0, row);
    let mut next = next_state(pending, sizes.words, x, 0, sizes.states);
    while let Some(s) = next {
        unite(images, 0, sets, row * s, row);
        next = next_state(pending, sizes.words, x, s + 1, sizes.states);
    }
}

// The recording y gets the states that the symbol a leads to; those that are new are pending, and y goes onto the stack unless something of
// it was pending before. The height of the stack is returned.
fn add_states(
    sizes: Sizes,
    images: &[u64],
    a: usize,
    y: usize,
    reached: &mut [u64],
    pending: &mut [u64],
    stack: &mut [u16],
    height: usize,
) -> usize
    requires { Ready sizes.words sizes.recordings reached.old pending.old stack.old height
        × (y < sizes.recordings) × (sizes.words * a + sizes.words ≤ length images.now) }
    ensures { StatesAdded sizes.words sizes.recordings (Has sizes.words images.now a) y
        reached.old pending.old height reached.new pending.new stack.new result }
{
    let words = sizes.words;
    let from = words * a;
    let base = words * y;
    if !brings(images, from, reached, base, words) {
        return height;
    }
    let waits = any_from(pending, base, words);
    unite_new(pending, base, images, from, reached, words);
    unite(reached, base, images, from, words);
    if waits {
        return height;
    }
    stack[height] = y as u16;
    height + 1
}

// The link to y over the symbol a is followed. The height of the stack is returned.
fn follow_link(
    images: &[u64],
    sizes: Sizes,
    a: usize,
    y: usize,
    reached: &mut [u64],
    pending: &mut [u64],
    stack: &mut [u16],
    height: usize,
) -> usize
    requires { Ready sizes.words sizes.recordings reached.old pending.old stack.old height
        × (sizes.words * sizes.symbols ≤ length images.now) }
    ensures { RowFollowed sizes.words sizes.recordings sizes.symbols (Has sizes.words images.now) a y
        reached.old pending.old height reached.new pending.new stack.new result }
{
    if sizes.symbols <= a {
        return height;
    }
    if sizes.recordings <= y {
        return height;
    }
    add_states(sizes, images, a, y, reached, pending, stack, height)
}

// All links that leave x are followed, `images` having the next states over each symbol, and `links` being at the first triple that leaves x.
// The height of the stack is returned.
fn follow_links(
    images: &[u64],
    sizes: Sizes,
    links: LinkView<'_>,
    x: usize,
    reached: &mut [u64],
    pending: &mut [u64],
    stack: &mut [u16],
    height: usize,
) -> usize
    requires { Ready sizes.words sizes.recordings reached.old pending.old stack.old height
        × (sizes.words * sizes.symbols ≤ length images.now) × FirstLink links.table.now x links.at }
    ensures { RowsFollowed sizes.words sizes.recordings sizes.symbols links.entry.table.now x
        (Has sizes.words images.now) reached.old pending.old height
        reached.new pending.new stack.new result }
{
    let from = x as u64;
    let mut top = height;
    let mut leaving = leaving_at(links.table, links.at, from);
    while let Some(link) = leaving {
        top = follow_link(
            images, sizes, link.label, link.end, reached, pending, stack, top,
        );
        leaving = next_leaving(links.table, link.at, from);
    }
    top
}

// All that is reached from the start in state 0: while something is pending, a recording is taken off the stack with its pending states,
// and its links are followed from these.
fn follow_all(
    sets: &[u64],
    sizes: Sizes,
    table: &[u16],
    begins: &[u16],
    start: usize,
    reached: &mut [u64],
    images: &mut [u64],
    pending: &mut [u64],
    stack: &mut [u16],
)
    requires { SetBeginning sizes.words sizes.symbols sizes.states sizes.recordings start
        reached.old pending.old stack.old
        × (sizes.words * (sizes.symbols * sizes.states) ≤ length sets.now) × ImagesBlank sizes.words images.old
        × LinkBegins table.now sizes.recordings begins.now }
    ensures { SetAllFound sizes.words (Steps sets.now sizes.symbols sizes.words) sizes.symbols sizes.states
        table.now sizes.recordings start reached.old reached.new }
{
    let words = sizes.words;
    put(images, words, 0, 0);
    let mut top = add_states(sizes, images, 0, start, reached, pending, stack, 0);
    // A work list: recordings are added while one is taken.
    while 0 < top {
        top -= 1;
        let x = usize::from(stack[top]);
        spread(sets, sizes, x, pending, images);
        zero_from(pending, words * x, words);
        let links = LinkView {
            table,
            at: usize::from(begins[x]),
        };
        top = follow_links(images, sizes, links, x, reached, pending, stack, top);
    }
}

// All that is reached from the start in state 0.
fn search_from(
    sets: &[u64],
    sizes: Sizes,
    table: &[u16],
    begins: &[u16],
    start: usize,
    reached: &mut [u64],
    images: &mut [u64],
    pending: &mut [u64],
    stack: &mut [u16],
)
    requires { SetBeginning sizes.words sizes.symbols sizes.states sizes.recordings start
        reached.old pending.old stack.old
        × (sizes.words * (sizes.symbols * sizes.states) ≤ length sets.now) × ImagesBlank sizes.words images.old
        × LinkBegins table.now sizes.recordings begins.now × (2 * sizes.recordings < length stack.old)
        × InRange sizes.symbols sizes.recordings table.now }
    ensures { SetAllFound sizes.words (Steps sets.now sizes.symbols sizes.words) sizes.symbols sizes.states
        table.now sizes.recordings start reached.old reached.new }
{
    if sizes.words == 1 {
        let steps = StepRows {
            sizes,
            rows: sets,
            cut: false,
        };
        follow_all_words(steps, table, begins, start, reached, images, pending, stack);
    } else {
        follow_all(
            sets, sizes, table, begins, start, reached, images, pending, stack,
        );
    }
}

// The search with ROOM words for what is pending, and STACK numbers for the recordings that wait. Each size stands
// apart, so that its room is on the stack only while it runs.
#[inline(never)]
fn search_in<const ROOM: usize, const STACK: usize>(
    sets: &[u64],
    sizes: Sizes,
    table: &[u16],
    begins: &[u16],
    start: usize,
    reached: &mut [u64],
)
    requires { SetStarting sizes.words sizes.symbols sizes.states sizes.recordings start reached.old
        × (sizes.words * (sizes.symbols * sizes.states) ≤ length sets.now)
        × (sizes.words * sizes.recordings ≤ ROOM) × (ROOM ≤ 16384) × (2 * sizes.recordings < STACK) × (STACK ≤ 16384)
        × InRange sizes.symbols sizes.recordings table.now
        × LinkBegins table.now sizes.recordings begins.now }
    ensures { SetAllFound sizes.words (Steps sets.now sizes.symbols sizes.words) sizes.symbols sizes.states
        table.now sizes.recordings start reached.old reached.new }
{
    let mut images: [u64; 128] = [0; 128];
    let mut pending: [u64; ROOM] = [0; ROOM];
    let mut stack: [u16; STACK] = [0; STACK];
    search_from(
        sets,
        sizes,
        table,
        begins,
        start,
        reached,
        &mut images,
        &mut pending,
        &mut stack,
    );
}

// Whether the sizes fit the search, the lent words and the rows of next states.
fn fitting(
    sets: &[u64],
    symbols: u64,
    words: u64,
    states: u64,
    recordings: u64,
    start: u64,
    reached: &[u64],
) -> bool
    ensures { SetFitting sets.now symbols words states recordings start reached.now result }
{
    if states == 0 {
        return false;
    }
    if 4 < words {
        return false;
    }
    if 64 * words < states {
        return false;
    }
    if 32 < symbols {
        return false;
    }
    if 4096 < recordings {
        return false;
    }
    if recordings <= start {
        return false;
    }
    if (reached.len() as u64) < words * recordings {
        return false;
    }
    words * (symbols * states) <= (sets.len() as u64)
}

// All pairs of a recording and a state that are reached from the start in state 0, as bits of the first words × recordings words; where the
// sizes do not fit, nothing is changed. `sets` has the next states of each state over each symbol, `words` words for each. To zero room for
// many recordings takes longer than to search a table of few, so these have less room; the most takes about 145 KiB of the thread's stack.
// Few states and recordings are searched by sets of recordings.
pub(super) fn search_sets(
    sets: &[u64],
    words: u64,
    states: u64,
    links: Indexed<'_>,
    start: u64,
    reached: &mut [u64],
)
    ensures { SetSearched sets.now links.entry.symbols words states links.entry.table.now links.entry.recordings
        start reached.old reached.new }
{
    if !fitting(
        sets,
        links.symbols,
        words,
        states,
        links.recordings,
        start,
        reached,
    ) {
        return;
    }
    let all = (words * links.recordings) as usize;
    clear(reached, all);
    let sizes = Sizes {
        symbols: links.symbols as usize,
        states: states as usize,
        words: words as usize,
        recordings: links.recordings as usize,
    };
    if words == 1 && turnable(sets, sizes) {
        search_turned(sets, sizes, links.table, start as usize, reached);
    } else if all <= 256 {
        search_in::<256, 513>(
            sets,
            sizes,
            links.table,
            links.begins,
            start as usize,
            reached,
        );
    } else if all <= 4096 {
        search_in::<4096, 8193>(
            sets,
            sizes,
            links.table,
            links.begins,
            start as usize,
            reached,
        );
    } else {
        search_in::<16384, 8193>(
            sets,
            sizes,
            links.table,
            links.begins,
            start as usize,
            reached,
        );
    }
}
