// Marks by the states of a rewriting, on plain data: its next states and flags, a table of links over lists and a start.
ghost use Rattle.std.specs.Prelude.{◌≡◌, ◌*◌, ◌<◌, ◌≤◌, true, ◌↔◌, length};
ghost use Rattle.finding.specs.Rewritten.{Rewritten};
ghost use Rattle.answering.specs.ListsCore.{ListsLent, ListsGiven, ListsMarked};

use super::indexed::Indexed;
use super::marks::mark;
use super::ranked::Ranked;
use super::ranks::{accept_ranks, rank_states};
use super::state_search::search_states;
use finding::clear::clear;

// Whether there are states, at most 256 of them, and at most 16 lists, with a row of next states for each state.
fn has_rows(next: &[u16], states: u64, lists: u64) -> bool
    ensures { (result ≡ true) ↔ ((0 < states) × (states ≤ 256) × (lists ≤ 16) × (16 * states ≤ length next.now)) }
{
    if states == 0 {
        return false;
    }
    if 256 < states {
        return false;
    }
    if 16 < lists {
        return false;
    }
    16 * states <= (next.len() as u64)
}

// The marks by the states of a rewriting, whose next states stand in rows of 16, over a table of its lists; the number of ones is
// returned. The 4 words of each recording are zero at the end.
pub(super) fn mark_lists(
    next: &[u16],
    flags: &[u8; 256],
    states: u64,
    links: Indexed<'_>,
    start: u64,
    marks: &mut [u8],
    workspace: &mut [u64],
) -> u64
    ensures { ListsLent links.entry.recordings start marks.old workspace.old → (R : Rewritten)
        → ListsGiven R links.entry.symbols next.now flags.now states links.entry.table.now links.entry.recordings
        → ListsMarked R links.entry.recordings links.entry.table.now start marks.old workspace.old
        marks.new workspace.new result }
{
    if 4096 < links.recordings {
        return 0;
    }
    if !has_rows(next, states, links.symbols) {
        return 0;
    }
    let mut ranks: [u16; 256] = [0; 256];
    let mut kept: [u16; 256] = [0; 256];
    let count = rank_states(
        next,
        flags,
        links.symbols as usize,
        states as usize,
        &mut ranks,
        &mut kept,
    );
    let mut accepts: [u64; 4] = [0; 4];
    accept_ranks(flags, &kept, count, &mut accepts);
    let ranked = Ranked {
        next,
        lists: links.symbols as usize,
        states: states as usize,
        ranks: &ranks,
        kept: &kept,
        count,
        words: (count + 63) / 64,
    };
    search_states(ranked, links, start, workspace);
    let ones = mark(
        workspace,
        ranked.words as u64,
        &accepts,
        links.recordings,
        marks,
    );
    clear(workspace, (4 * links.recordings) as usize);
    ones
}
