// Exploration of sets of at most 64 elements, each a word, breadth first: standings are sets of places explored over the labels, states sets
// of standings over the lists.
ghost use Rattle.std.specs.Prelude.{◌+◌, ◌*◌, ◌≤◌, ◌<◌, length};

use finding::step::follows;
use places::Places;

// At 64 × symbol + element the set that the symbol leads to from the element. There is room for 32 symbols.
pub(super) type Table = [u64; 2048];

// The set that a symbol leads to from a set.
pub(super) fn next_set(table: &[u64], symbol: usize, set: u64) -> u64
    requires { (symbol < 32) × (64 * symbol + 64 ≤ length table.now) }
{
    let from = 64 * symbol;
    follows(&table[from..from + 64], Places(set)).0
}

// The place of a set among the first n found; n where it is not there.
pub(super) fn place_of(found: &[u64], n: usize, set: u64) -> usize
    requires { n ≤ length found.now }
    ensures { result ≤ n }
{
    found[..n]
        .iter()
        .position(|known| *known == set)
        .unwrap_or(n)
}

// A set goes behind the n that are found, where it is not among them and there is room. How many are found then is returned.
fn add(found: &mut [u64], n: usize, set: u64) -> usize
    requires { n ≤ length found.old }
    ensures { (n ≤ result) × (result ≤ length found.new) }
{
    if found[..n].contains(&set) || n == found.len() {
        return n;
    }
    found[n] = set;
    n + 1
}

// The sets that the symbols lead to from the set number i.
fn extend(table: &Table, symbols: usize, i: usize, n: usize, found: &mut [u64]) -> usize
    requires { (i < n) × (n ≤ length found.old) × (symbols ≤ 32) }
    ensures { (n ≤ result) × (result ≤ length found.new) }
{
    let set = found[i];
    let mut m = n;
    for a in 0..symbols {
        m = add(found, m, next_set(table, a, set));
    }
    m
}

// All sets that the symbols lead to from the first element alone, as far as there is room. How many are found is returned.
pub(super) fn explore(table: &Table, symbols: usize, found: &mut [u64]) -> usize
    requires { (0 < length found.old) × (symbols ≤ 32) }
    ensures { result ≤ length found.new }
{
    found[0] = Places::START.0;
    let mut n = 1;
    let mut i = 0;
    // No `for`: the list grows while it is gone through.
    while i < n {
        n = extend(table, symbols, i, n, found);
        i += 1;
    }
    n
}
