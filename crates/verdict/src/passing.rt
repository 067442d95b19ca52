// The states that lists with the empty path lead to from each state, as k words at k × state; and, where one word is enough, those that are
// reached where a path of a list ends, at 64 × list + state.
ghost use Rattle.std.specs.Prelude.{◌≡◌, ℕ, ◌+◌, ◌*◌, ◌<◌, ◌≤◌, true, ◌↔◌, List, length, slice_index};
ghost use Rattle.theory.specs.Places.{Member};
ghost use Rattle.places.specs.Words.{number_of};
ghost use Rattle.verdict.specs.Columns.{NextBelow, LeadsIn, Passing, Finishing};
ghost use Rattle.verdict.specs.PassingTurns.{RowOnward, Onward, Passable, Alone, Sound};
ghost use Rattle.verdict.specs.PassingTurns.{WordJoined, StateJoined, Gathered, Rounded};
ghost use Rattle.verdict.specs.FinishingTurns.{ListEnded};

// Whether each next state of a row is one of the states.
fn row_below(row: &[u16], states: usize) -> bool
    ensures { result ≡ true → (v : ℕ) → v < length row.now → slice_index row.now v < states }
{
    row.iter().all(|next| (*next as usize) < states)
}

// Whether each next state is one of the states.
fn next_below(table: &[u16], states: usize, lists: usize) -> bool
    requires { (states ≤ 1024) × (lists ≤ 16) × (16 * states ≤ length table.now) }
    ensures { result ≡ true → NextBelow states lists table.now }
{
    for q in 0..states {
        if !row_below(&table[16 * q..16 * q + lists], states) {
            return false;
        }
    }
    true
}

// Each state alone.
fn alone(states: usize, k: usize, passes: &mut [u64])
    requires { (k ≤ 4) × (states ≤ 64 * k) × (k * states ≤ length passes.old) }
    ensures { Alone k states passes.new }
{
    passes[..k * states].fill(0);
    for t in 0..states {
        passes[k * t + t / 64] = 1 << (t % 64);
    }
}

// The word number x gains the places of the word number y; whether it changes.
fn join_word(x: usize, y: usize, passes: &mut [u64]) -> bool
    requires { (x < length passes.old) × (y < length passes.old) }
    ensures { WordJoined x y passes.old passes.new result }
{
    let old = passes[x];
    let all = old | passes[y];
    passes[x] = all;
    all != old
}

// The state t gains the states that the state s leads to; whether it changes.
fn join_state(k: usize, t: usize, s: usize, passes: &mut [u64]) -> bool
    requires { (k ≤ 4) × (t < 1024) × (s < 1024) × (k * t + k ≤ length passes.old) × (k * s + k ≤ length passes.old) }
    ensures { StateJoined k t s passes.old passes.new result }
{
    let mut changed = false;
    for j in (0..k).rev() {
        changed |= join_word(k * t + j, k * s + j, passes);
    }
    changed
}

// The state t gains what the states lead to that one list with the empty path leads to from it; whether it changes.
fn gather(
    accepting: &[u64],
    table: &[u16],
    states: usize,
    lists: usize,
    k: usize,
    t: usize,
    passes: &mut [u64],
) -> bool
    requires { Passable k states lists accepting.now table.now × (t < states) × (k * states ≤ length passes.old) }
    ensures { Gathered k states lists 0 accepting.now table.now t passes.old passes.new result }
{
    let mut changed = false;
    for v in (0..lists).rev() {
        if accepting[v + 1] & 1 == 1 {
            changed |= join_state(k, t, table[16 * t + v] as usize, passes);
        }
    }
    changed
}

// One round over the states, the last first; whether one has changed.
fn pass_round(
    accepting: &[u64],
    table: &[u16],
    states: usize,
    lists: usize,
    k: usize,
    passes: &mut [u64],
) -> bool
    requires { Passable k states lists accepting.now table.now × (k * states ≤ length passes.old)
        × Sound k states lists accepting.now table.now passes.old }
    ensures { Rounded k states lists accepting.now table.now passes.new result }
{
    let mut changed = false;
    for t in (0..states).rev() {
        changed |= gather(accepting, table, states, lists, k, t, passes);
    }
    changed
}

// Whether the lists with the empty path lead from the state q to states that do not come before it.
fn row_onward(accepting: &[u64], table: &[u16], q: usize, lists: usize) -> bool
    requires { (q < 1024) × (lists ≤ 16) × (lists < length accepting.now) × (16 * q + 16 ≤ length table.now) }
    ensures { result ≡ true → RowOnward accepting.now table.now q lists }
{
    for v in 0..lists {
        if accepting[v + 1] & 1 == 1 && (table[16 * q + v] as usize) < q {
            return false;
        }
    }
    true
}

// Whether they do so from each state.
fn onward(accepting: &[u64], table: &[u16], states: usize, lists: usize) -> bool
    requires { (states ≤ 1024) × (lists ≤ 16) × (lists < length accepting.now) × (16 * states ≤ length table.now) }
    ensures { result ≡ true → Onward states lists accepting.now table.now }
{
    for q in 0..states {
        if !row_onward(accepting, table, q, lists) {
            return false;
        }
    }
    true
}

// The states that lists with the empty path lead to from each state: rounds until nothing changes; one, where these lists lead to no state
// before. False where a next state is none of the states, or as many rounds as states do not suffice.
pub fn passing(
    accepting: &[u64],
    table: &[u16],
    states: usize,
    lists: usize,
    k: usize,
    passes: &mut [u64],
) -> bool
    requires { (k ≤ 4) × (states ≤ 64 * k) × (lists ≤ 16) × (lists < length accepting.now) × (16 * states ≤ length table.now)
        × (k * states ≤ length passes.old) }
    ensures { result ≡ true → Passing k states lists accepting.now table.now passes.new
        × NextBelow states lists table.now }
{
    if !next_below(table, states, lists) {
        return false;
    }
    alone(states, k, passes);
    if onward(accepting, table, states, lists) {
        pass_round(accepting, table, states, lists, k, passes);
        return true;
    }
    for _round in 0..=states {
        if !pass_round(accepting, table, states, lists, k, passes) {
            return true;
        }
    }
    false
}

// The states that the state 0 leads to, as four words.
pub fn first_of(passes: &[u64], k: usize, first: &mut [u64; 4])
    requires { (k ≤ 4) × (k ≤ length passes.now) }
    ensures { (t : ℕ) → Member t (number_of first.new) ↔ LeadsIn k passes.now 0 t }
{
    first[..k].copy_from_slice(&passes[..k]);
    first[k..].fill(0);
}

// The entries of the states that the list v leads to; false where one is none of the states.
fn list_entries(
    passes: &[u64; 64],
    table: &[u16],
    states: usize,
    v: usize,
    ended: &mut [u64],
) -> bool
    requires { (states ≤ 64) × (v < 16) × (16 * states ≤ length table.now) × (64 * v + 64 ≤ length ended.old) }
    ensures { ListEnded states v table.now passes.now ended.old ended.new result }
{
    for q in 0..states {
        let next = table[16 * q + v] as usize;
        if next >= states {
            return false;
        }
        ended[64 * v + q] = passes[next];
    }
    true
}

// The states that are reached where a path of each list ends, from each state; false where a next state is none of the states.
pub fn finishing(
    passes: &[u64; 64],
    table: &[u16],
    states: usize,
    lists: usize,
    ended: &mut [u64],
) -> bool
    requires { (states ≤ 64) × (lists ≤ 16) × (16 * states ≤ length table.now) × (64 * lists ≤ length ended.old) }
    ensures { result ≡ true → (accepting : List ℕ) → Passing 1 states lists accepting table.now passes.now
        → Finishing states lists accepting table.now ended.new }
{
    for v in 0..lists {
        if !list_entries(passes, table, states, v, ended) {
            return false;
        }
    }
    true
}
