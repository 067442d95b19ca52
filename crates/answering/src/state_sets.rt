// The next states of a deterministic automaton as words, for the search over sets of states: rows and next states go by ranks.
ghost use Rattle.std.specs.Prelude.{◌+◌, ◌*◌, ◌<◌, ◌≤◌, length};
ghost use Rattle.answering.specs.StateSets.{RankedStep, StepPut, Filled, StateSets};

use super::pairs::put;
use super::ranked::Ranked;

// The next state, over the list v, of the state with rank r is put into its row, where it is kept.
fn put_step(ranked: Ranked<'_>, r: usize, v: usize, sets: &mut [u64])
    requires { (ranked.words * (ranked.lists * ranked.count) ≤ length sets.old) × (r < ranked.count) × (v < ranked.lists) }
    ensures { let R = ranked.entry in StepPut R.words (RankedStep R.next.now R.states R.ranks.now R.kept.now R.count)
        r v (R.lists * r + v) sets.old sets.new }
{
    let t = usize::from(ranked.next[16 * usize::from(ranked.kept[r]) + v]);
    if ranked.states <= t {
        return;
    }
    let q = usize::from(ranked.ranks[t]);
    if q < ranked.count {
        put(sets, ranked.words, ranked.lists * r + v, q);
    }
}

// The next states of the state with rank r are put into their rows.
fn put_row(ranked: Ranked<'_>, r: usize, sets: &mut [u64])
    requires { (ranked.words * (ranked.lists * ranked.count) ≤ length sets.old) × (r < ranked.count)
        × Filled ranked.lists ranked.words
        (RankedStep ranked.next.now ranked.states ranked.ranks.now ranked.kept.now ranked.count)
        (ranked.lists * r) sets.old }
    ensures { let R = ranked.entry in Filled R.lists R.words (RankedStep R.next.now R.states R.ranks.now R.kept.now R.count)
        (R.lists * r + R.lists) sets.new }
{
    for v in 0..ranked.lists {
        put_step(ranked, r, v, sets);
    }
}

// The words, which hold nothing before, get the next states of all states that are kept.
pub(super) fn put_rows(ranked: Ranked<'_>, sets: &mut [u64])
    requires { (ranked.words * (ranked.lists * ranked.count) ≤ length sets.old)
        × Filled ranked.lists ranked.words
        (RankedStep ranked.next.now ranked.states ranked.ranks.now ranked.kept.now ranked.count) 0 sets.old }
    ensures { let R = ranked.entry in StateSets R.lists R.words R.count
        (RankedStep R.next.now R.states R.ranks.now R.kept.now R.count) sets.new }
{
    for r in 0..ranked.count {
        put_row(ranked, r, sets);
    }
}
