// The search of an automaton of few states over few recordings: for each state the set of the recordings that are reached in it, so that
// links are followed from all recordings of a word at once, by their ends (ends).
ghost use Rattle.std.specs.Prelude.{◌≡◌, ◌*◌, ◌<◌, ◌≤◌, true, length};
ghost use Rattle.answering.specs.Links.{InRange};
ghost use Rattle.answering.specs.EndSteps.{Turnable};
ghost use Rattle.answering.specs.SetSearch.{Steps};
ghost use Rattle.answering.specs.SetSearchRun.{SetStarting, SetAllFound};
ghost use Rattle.answering.specs.TurnedRun.{TurnedRoom, TurnedBlank, WordTaken, RoundTaken, TurnedFound};

use super::end_rows::EndRows;
use super::end_steps::follow_members;
use super::ends::fill_ends;
use super::pairs::put;
use super::rows::sets_within;
use super::sizes::Sizes;
use super::turned_back::turn_back;

// Whether the search by sets of recordings serves: for few states, which lead to one another, and few recordings.
pub(super) fn turnable(rows: &[u64], sizes: Sizes) -> bool
    requires { (sizes.symbols ≤ 32) × (sizes.symbols * sizes.states ≤ length rows.now) }
    ensures { result ≡ true → Turnable rows.now sizes.symbols sizes.states × (sizes.recordings ≤ 256)
        × (sizes.symbols * sizes.recordings ≤ 768) }
{
    if sizes.states == 0 {
        return false;
    }
    if 16 < sizes.states {
        return false;
    }
    if 256 < sizes.recordings {
        return false;
    }
    if 768 < sizes.symbols * sizes.recordings {
        return false;
    }
    sets_within(&rows[..sizes.symbols * sizes.states], sizes.states)
}

// The links of those recordings of a word that are new are followed, and these are done. Whether there are any is returned.
fn take_word(turned: EndRows<'_>, i: usize, sets: &mut [u64], done: &mut [u64]) -> bool
    requires { TurnedRoom turned.sizes.states turned.sizes.recordings sets.old done.old × (i < 4 * turned.sizes.states) }
    ensures { let T = turned.entry in WordTaken T.rows.now T.sizes.symbols T.sizes.states T.sizes.recordings T.ends.now i
        sets.old done.old sets.new done.new result }
{
    let all = sets[i];
    let new = all ^ done[i];
    if new == 0 {
        return false;
    }
    done[i] = all;
    follow_members(turned, 64 * (i % 4), new, i / 4, sets);
    true
}

// Each word is taken once. Whether one of them had something new is returned.
fn take_words(turned: EndRows<'_>, sets: &mut [u64], done: &mut [u64]) -> bool
    requires { TurnedRoom turned.sizes.states turned.sizes.recordings sets.old done.old }
    ensures { let T = turned.entry in RoundTaken T.rows.now T.sizes.symbols T.sizes.states T.sizes.recordings T.ends.now
        sets.old done.old sets.new done.new result }
{
    let mut more = false;
    for i in 0..4 * turned.sizes.states {
        if take_word(turned, i, sets, done) {
            more = true;
        }
    }
    more
}

// The sets of all recordings that are reached from the start in state 0, by rounds until nothing is new.
fn find_sets(turned: EndRows<'_>, start: usize, sets: &mut [u64], done: &mut [u64])
    requires { TurnedBlank turned.sizes.states sets.old done.old × (start < turned.sizes.recordings) }
    ensures { let T = turned.entry in TurnedFound T.rows.now T.sizes.symbols T.sizes.states T.sizes.recordings T.ends.now start
        sets.new }
{
    put(sets, 4, 0, start);
    // Nothing is counted: rounds go on until one brings nothing new.
    while take_words(turned, sets, done) {}
}

// The search, with ROOM words for the ends. Each size stands apart, so that its room is on the stack only while it runs.
#[inline(never)]
fn search_in<const ROOM: usize>(
    rows: &[u64],
    sizes: Sizes,
    table: &[u16],
    start: usize,
    reached: &mut [u64],
)
    requires { Turnable rows.now sizes.symbols sizes.states × InRange sizes.symbols sizes.recordings table.now
        × (sizes.recordings ≤ 256) × (sizes.symbols * sizes.recordings ≤ 768)
        × (4 * (sizes.symbols * sizes.recordings) ≤ ROOM) × (ROOM ≤ 16384)
        × SetStarting 1 sizes.symbols sizes.states sizes.recordings start reached.old }
    ensures { SetAllFound 1 (Steps rows.now sizes.symbols 1) sizes.symbols sizes.states table.now
        sizes.recordings start reached.old reached.new }
{
    let mut ends: [u64; ROOM] = [0; ROOM];
    fill_ends(table, sizes, &mut ends);
    let turned = EndRows {
        sizes,
        rows,
        ends: &ends,
    };
    let mut sets: [u64; 64] = [0; 64];
    let mut done: [u64; 64] = [0; 64];
    find_sets(turned, start, &mut sets, &mut done);
    turn_back(sizes, &sets, reached);
}

// All pairs of a recording and a state that are reached from the start in state 0, as bits of a word for each recording. To zero room for
// many ends takes longer than to search a table of few, so these have less room.
pub(super) fn search_turned(
    rows: &[u64],
    sizes: Sizes,
    table: &[u16],
    start: usize,
    reached: &mut [u64],
)
    requires { Turnable rows.now sizes.symbols sizes.states × InRange sizes.symbols sizes.recordings table.now
        × (sizes.recordings ≤ 256) × (sizes.symbols * sizes.recordings ≤ 768)
        × SetStarting 1 sizes.symbols sizes.states sizes.recordings start reached.old }
    ensures { SetAllFound 1 (Steps rows.now sizes.symbols 1) sizes.symbols sizes.states table.now
        sizes.recordings start reached.old reached.new }
{
    if sizes.symbols * sizes.recordings <= 256 {
        search_in::<1024>(rows, sizes, table, start, reached);
    } else {
        search_in::<3072>(rows, sizes, table, start, reached);
    }
}
