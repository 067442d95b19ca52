// Ranks: the states that are kept are numbered from 0 on in their order, so that a set of them takes few words. A state that leads nowhere is
// left out, but for the start: no accepting state is reached from it. A state that is left out has the rank 256.
ghost use Rattle.std.specs.Prelude.{◌≡◌, ℕ, ◌+◌, ◌*◌, ◌<◌, ◌≤◌, true, ◌↔◌, length, slice_index};
ghost use Rattle.answering.specs.Ranks.{LeadsNowhere, RankRoom, Ranks, AcceptedRanks};

use super::pairs::put;

// Whether a state leads nowhere: it is not accepting, and over each list it is its own next state.
fn leads_nowhere(next: &[u16], flags: &[u8; 256], lists: usize, s: usize) -> bool
    requires { (s < 256) × (16 * s + lists ≤ length next.now) }
    ensures { (result ≡ true) ↔ LeadsNowhere next.now lists flags.now s }
{
    if flags[s] == 1 {
        return false;
    }
    for v in 0..lists {
        if usize::from(next[16 * s + v]) != s {
            return false;
        }
    }
    true
}

// The states that are kept get their ranks, and `kept` lists them by these: the start, whose rank is 0 in what is lent, and each other state
// that leads somewhere. How many there are is returned.
pub(super) fn rank_states(
    next: &[u16],
    flags: &[u8; 256],
    lists: usize,
    states: usize,
    ranks: &mut [u16],
    kept: &mut [u16],
) -> usize
    requires { RankRoom next.now lists states ranks.old kept.old }
    ensures { Ranks next.now lists states flags.now ranks.new kept.new result }
{
    let mut count = 1;
    for s in 1..states {
        if leads_nowhere(next, flags, lists, s) {
            ranks[s] = 256;
        } else {
            ranks[s] = count as u16;
            kept[count] = s as u16;
            count += 1;
        }
    }
    count
}

// The ranks of the accepting states.
pub(super) fn accept_ranks(flags: &[u8; 256], kept: &[u16], count: usize, accepts: &mut [u64])
    requires { (count ≤ 256) × (count ≤ length kept.now) × ((r : ℕ) → r < count → slice_index kept.now r < 256)
        × (4 ≤ length accepts.old) × AcceptedRanks flags.now kept.now 0 accepts.old }
    ensures { AcceptedRanks flags.now kept.now count accepts.new }
{
    for r in 0..count {
        if flags[usize::from(kept[r])] == 1 {
            put(accepts, 4, 0, r);
        }
    }
}
