// Rows of words, each a set of states: how far their members go, one is united with another, and whether one has what the other lacks.
ghost use Rattle.std.specs.Prelude.{◌≡◌, ℕ, ◌+◌, ◌^◌, ◌<◌, ◌≤◌, true, length, slice_index};
ghost use Rattle.answering.specs.SetRows.{word_of, new_of, United, Brings};

// Whether all words are sets of members below n.
pub(super) fn sets_within(sets: &[u64], n: usize) -> bool
    requires { n ≤ 16 }
    ensures { result ≡ true → (i : ℕ) → i < length sets.now → slice_index sets.now i < 2 ^ n }
{
    let end: u64 = 1 << n;
    sets.iter().all(|set| *set < end)
}

// Whether one of the words of `sets` from `from` on has a member that the word of `known` from `base` on lacks.
pub(super) fn brings(sets: &[u64], from: usize, known: &[u64], base: usize, count: usize) -> bool
    requires { (from + count ≤ length sets.now) × (base + count ≤ length known.now) }
    ensures { Brings base count sets.now from known.now result }
{
    for j in 0..count {
        let word = sets[from + j];
        let new = word ^ (word & known[base + j]);
        if new != 0 {
            return true;
        }
    }
    false
}

// The words of `into` from `base` on get the members of those of `sets` from `from` on.
pub(super) fn unite(into: &mut [u64], base: usize, sets: &[u64], from: usize, count: usize)
    requires { (from + count ≤ length sets.now) × (base + count ≤ length into.old) }
    ensures { United base count (word_of sets.now from) into.old into.new }
{
    for j in 0..count {
        into[base + j] |= sets[from + j];
    }
}

// The words of `into` from `base` on get those members that the words of `known` from `base` on lack.
pub(super) fn unite_new(
    into: &mut [u64],
    base: usize,
    sets: &[u64],
    from: usize,
    known: &[u64],
    count: usize,
)
    requires { (from + count ≤ length sets.now) × (base + count ≤ length known.now) × (base + count ≤ length into.old) }
    ensures { United base count (new_of sets.now from known.now base)
        into.old into.new }
{
    for j in 0..count {
        let word = sets[from + j];
        let new = word ^ (word & known[base + j]);
        into[base + j] |= new;
    }
}
