// Sums: the states that are reached where a path of a list ends, from each set of four neighbouring states. They stand behind what is reached
// from each state alone, sixteen words for four states, so that a step joins one word for four states.
ghost use Rattle.std.specs.Prelude.{◌≡◌, ℕ, ◌+◌, ◌*◌, ◌/◌, ◌<◌, ◌≤◌, length, slice_index};
ghost use Rattle.theory.specs.Places.{Member};
ghost use Rattle.verdict.specs.Sums.{SumsRoom, FourSummed, ListSummed, Sums, SumsJoined};

// The sixteen sums of the four words from `from` on are put down from `at` on.
fn sum_four(ended: &mut [u64], from: usize, at: usize)
    requires { (from + 4 ≤ at) × (at + 16 ≤ length ended.old) }
    ensures { FourSummed from at ended.old ended.new }
{
    ended[at] = 0;
    for set in 1..16u64 {
        let less = (set & (set - 1)) as usize;
        let state = u64::trailing_zeros(set) as usize;
        ended[at + (set as usize)] = ended[at + less] | ended[from + state];
    }
}

// The sums of a list whose words stand from `from` on, four states after the other.
pub fn sum_list(ended: &mut [u64], from: usize, at: usize, count: usize)
    requires { (count ≤ 16) × (from + 64 ≤ at) × (at + 16 * count ≤ length ended.old) }
    ensures { ListSummed from at count ended.old ended.new }
{
    for k in 0..count {
        sum_four(ended, from + 4 * k, at + 16 * k);
    }
}

// The sums of all lists, of n states; what is reached from each state alone stays.
pub fn sum_lists(ended: &mut [u64], lists: usize, n: usize)
    requires { (lists ≤ 16) × (n ≤ 64) × SumsRoom lists n ended.old }
    ensures { Sums lists n ended.new
        × ((j : ℕ) → j < 64 * lists → slice_index ended.new j ≡ slice_index ended.old j) }
{
    let count = 2 * ((n + 7) / 8);
    for v in 0..lists {
        sum_list(ended, 64 * v, 64 * lists + 16 * count * v, count);
    }
}

// The union of the words of the states of a set: twice four states at a time, by the sums of the words, which stand from `sums` on.
pub fn ended_of(ended: &[u64], sums: usize, ends: u64) -> u64
    requires { (q : ℕ) → Member q ends → sums + 32 * (q / 8) + 32 ≤ length ended.now }
    ensures { SumsJoined ended.now sums ends result }
{
    let mut all: u64 = 0;
    let mut rest = ends;
    let mut at = sums;
    // Eight states a turn, and no turn behind the last one.
    while rest != 0 {
        all |= ended[at + ((rest % 16) as usize)];
        all |= ended[at + 16 + ((rest / 16 % 16) as usize)];
        rest /= 256;
        at += 32;
    }
    all
}
