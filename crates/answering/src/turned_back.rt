// Sets of recordings, one for each state, turned back into sets of states, one word for each recording.
ghost use Rattle.std.specs.Prelude.{ℕ, ◌+◌, ◌<◌, ◌≤◌, length};
ghost use Rattle.theory.specs.Places.{Member};
ghost use Rattle.answering.specs.TurnedBack.{WordTurned, Turning, TurnedBack};

use super::pairs::put;
use super::sizes::Sizes;
use places::Places;

// The members of a word, which count recordings from `from` on, get the state s.
fn turn_word(set: u64, from: usize, s: usize, reached: &mut [u64])
    requires { (s < 64) × (from ≤ 256) × ((p : ℕ) → Member p set → from + p < length reached.old) }
    ensures { WordTurned set from s reached.old reached.new }
{
    for p in Places(set).members() {
        put(reached, 1, from + p, s);
    }
}

// Each recording gets the states whose sets have it.
pub(super) fn turn_back(sizes: Sizes, sets: &[u64], reached: &mut [u64])
    requires { Turning sizes.states sizes.recordings sets.now reached.old }
    ensures { TurnedBack sizes.states sizes.recordings sets.now reached.old reached.new }
{
    for i in 0..4 * sizes.states {
        turn_word(sets[i], 64 * (i % 4), i / 4, reached);
    }
}
