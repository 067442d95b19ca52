// Which standings and which states accept.
ghost use Rattle.std.specs.Prelude.{◌≡◌, ◌≤◌, ◌++◌, map, length, take, drop};
ghost use Rattle.theory.specs.Automaton.{Automaton};
ghost use Rattle.finding.specs.States.{accepting_standings, state_accepts};
ghost use Rattle.finding.specs.Find.{flag};

use crate::number::number_at;
use places::Places;

// The numbers of the accepting ones among the first `count` standings found.
pub fn accepting_standings(found: &[u64], count: u64, accepting: Places) -> u64
    ensures { (A : Automaton) → A.accepting ≡ accepting.0 → count ≤ 64 → count ≤ length found.now
        → result ≡ accepting_standings A (take count found.now) }
{
    if count > 64 {
        return 0;
    }
    let mut numbers: u64 = 0;
    for i in 0..count {
        if number_at(found, i) & accepting.0 != 0 {
            numbers |= 1 << i;
        }
    }
    numbers
}

// A state accepts when all its standings do.
fn state_accepts(accepting: u64, state: u64) -> bool
    ensures { result ≡ state_accepts accepting state }
{
    state & accepting == state
}

fn flag(accepts: bool) -> u8
    ensures { result ≡ flag accepts }
{
    u8::from(accepts)
}

// The flags of the first `count` states.
pub fn flags(states: &[u64], count: u64, accepting: u64, flags: &mut [u8])
    ensures { count ≤ length states.now → count ≤ length flags.old
        → flags.new ≡ map (λ X. flag (state_accepts accepting X)) (take count states.now)
        ++ drop count flags.old }
{
    let n = count as usize;
    if n > states.len() || n > flags.len() {
        return;
    }
    for i in 0..n {
        flags[i] = flag(state_accepts(accepting, states[i]));
    }
}
