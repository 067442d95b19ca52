// The places of an automaton that are reached over a table from one recording: the search of one word for each set (word_search), by the next
// places of each place, which each label cuts to those that it enters; or, of few places, by rows of merged ones (place_rows).
ghost use Rattle.std.specs.Prelude.{◌≡◌, ℕ, ◌*◌, ◌<◌, ◌≤◌, true, ◌↔◌, length, slice_index};
ghost use Rattle.answering.specs.Links.{InRange};
ghost use Rattle.answering.specs.LinkBegins.{LinkBegins};
ghost use Rattle.answering.specs.SetSearchRun.{SetStarting, SetAllFound};
ghost use Rattle.answering.specs.PlaceSteps.{PlaceCount, PlacesSearchable, PlacesSearched};
ghost use Rattle.answering.specs.FewPlaces.{FewPlaces};
ghost use Rattle.answering.specs.WordSteps.{WordStep};

use super::indexed::Indexed;
use super::place_rows::{few_rows, place_rows};
use super::sizes::Sizes;
use super::step_rows::StepRows;
use super::turned_search::{search_turned, turnable};
use super::word_search::follow_all_words;
use finding::clear::clear;

// How many places are searched: all of them, of at most 64.
fn place_count(follow: &[u64]) -> usize
    ensures { PlaceCount follow.now result }
{
    follow.len().min(64)
}

// The words that the labels enter are copied.
fn load_enter(enter: &[u64], labels: usize, images: &mut [u64])
    requires { (labels ≤ length enter.now) × (labels ≤ length images.old) }
    ensures { (a : ℕ) → a < labels → slice_index images.new a ≡ slice_index enter.now a }
{
    images[..labels].copy_from_slice(&enter[..labels]);
}

// The search with ROOM words for what is pending, and STACK numbers for the recordings that wait. Each size stands
// apart, so that its room is on the stack only while it runs.
#[inline(never)]
fn search_in<const ROOM: usize, const STACK: usize>(
    steps: StepRows<'_>,
    table: &[u16],
    begins: &[u16],
    start: usize,
    reached: &mut [u64],
    images: &mut [u64],
)
    requires { SetStarting 1 steps.sizes.symbols steps.sizes.states steps.sizes.recordings start reached.old
        × (steps.sizes.symbols ≤ length images.old)
        × (steps.sizes.recordings ≤ ROOM) × (ROOM ≤ 16384) × (2 * steps.sizes.recordings < STACK) × (STACK ≤ 16384)
        × InRange steps.sizes.symbols steps.sizes.recordings table.now
        × LinkBegins table.now steps.sizes.recordings begins.now }
    ensures { let S = steps.entry in SetAllFound 1 (WordStep S.cut S.rows.now S.sizes.symbols images.old) S.sizes.symbols
        S.sizes.states table.now S.sizes.recordings start reached.old reached.new }
{
    let mut pending: [u64; ROOM] = [0; ROOM];
    let mut stack: [u16; STACK] = [0; STACK];
    follow_all_words(
        steps,
        table,
        begins,
        start,
        reached,
        images,
        &mut pending,
        &mut stack,
    );
}

// The search with as much room as the recordings need: to zero room for many takes longer than to search a table of few. Few states and
// recordings are searched by sets of recordings.
fn search_words(
    steps: StepRows<'_>,
    table: &[u16],
    begins: &[u16],
    start: usize,
    reached: &mut [u64],
    images: &mut [u64],
)
    requires { SetStarting 1 steps.sizes.symbols steps.sizes.states steps.sizes.recordings start reached.old
        × (steps.sizes.symbols ≤ length images.old)
        × InRange steps.sizes.symbols steps.sizes.recordings table.now
        × LinkBegins table.now steps.sizes.recordings begins.now }
    ensures { let S = steps.entry in SetAllFound 1 (WordStep S.cut S.rows.now S.sizes.symbols images.old) S.sizes.symbols
        S.sizes.states table.now S.sizes.recordings start reached.old reached.new }
{
    if !steps.cut && turnable(steps.rows, steps.sizes) {
        search_turned(steps.rows, steps.sizes, table, start, reached);
    } else if steps.sizes.recordings <= 256 {
        search_in::<256, 513>(steps, table, begins, start, reached, images);
    } else {
        search_in::<4096, 8193>(steps, table, begins, start, reached, images);
    }
}

// Whether the sizes fit the search and what is lent.
fn fitting(enter: &[u64], labels: u64, recordings: u64, start: u64, reached: &[u64]) -> bool
    ensures { (result ≡ true) ↔ PlacesSearchable enter.now labels recordings start reached.now }
{
    if 32 < labels {
        return false;
    }
    if (enter.len() as u64) < labels {
        return false;
    }
    if 4096 < recordings {
        return false;
    }
    if recordings <= start {
        return false;
    }
    recordings <= (reached.len() as u64)
}

// All pairs of a recording and a place that are reached from the start in place 0, as bits of a word for each recording; where the sizes do
// not fit, nothing is changed.
fn search_places(follow: &[u64], enter: &[u64], links: Indexed<'_>, start: u64, reached: &mut [u64])
    ensures { (accepting : ℕ) → PlacesSearched follow.now enter.now accepting links.entry.symbols
        links.entry.table.now links.entry.recordings start reached.old reached.new }
{
    if !fitting(enter, links.symbols, links.recordings, start, reached) {
        return;
    }
    clear(reached, links.recordings as usize);
    let sizes = Sizes {
        symbols: links.symbols as usize,
        states: place_count(follow),
        words: 1,
        recordings: links.recordings as usize,
    };
    let mut images: [u64; 32] = [0; 32];
    load_enter(enter, sizes.symbols, &mut images);
    let steps = StepRows {
        sizes,
        rows: follow,
        cut: true,
    };
    search_words(
        steps,
        links.table,
        links.begins,
        start as usize,
        reached,
        &mut images,
    );
}

// The same by rows of merged places: each place that is reached is there, or one that stands for it.
fn search_merged(
    follow: &[u64],
    enter: &[u64],
    accepting: u64,
    links: Indexed<'_>,
    start: u64,
    reached: &mut [u64],
)
    requires { FewPlaces follow.now × (links.symbols * length follow.now ≤ 48) }
    ensures { PlacesSearched follow.now enter.now accepting links.entry.symbols links.entry.table.now
        links.entry.recordings start reached.old reached.new }
{
    if !fitting(enter, links.symbols, links.recordings, start, reached) {
        return;
    }
    clear(reached, links.recordings as usize);
    let sizes = Sizes {
        symbols: links.symbols as usize,
        states: follow.len(),
        words: 1,
        recordings: links.recordings as usize,
    };
    let mut rows: [u64; 48] = [0; 48];
    place_rows(follow, enter, accepting, sizes.symbols, &mut rows);
    let mut images: [u64; 32] = [0; 32];
    let steps = StepRows {
        sizes,
        rows: &rows,
        cut: false,
    };
    search_words(
        steps,
        links.table,
        links.begins,
        start as usize,
        reached,
        &mut images,
    );
}

// The search of the places that are reached from the start in place 0, up to places that are accepted alike: by rows of merged places where
// these are few.
pub(super) fn search_any(
    follow: &[u64],
    enter: &[u64],
    accepting: u64,
    links: Indexed<'_>,
    start: u64,
    reached: &mut [u64],
)
    ensures { PlacesSearched follow.now enter.now accepting links.entry.symbols links.entry.table.now
        links.entry.recordings start reached.old reached.new }
{
    if few_rows(follow, links.symbols) {
        search_merged(follow, enter, accepting, links, start, reached);
    } else {
        search_places(follow, enter, links, start, reached);
    }
}
