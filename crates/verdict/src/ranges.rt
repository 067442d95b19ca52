// Steps of turned cover sets with more than 64 states: the column of an offset has n places, up to four words of them. `reached` has at
// 4 × state the states that lists with the empty path lead to from it, itself among them, as four words.
ghost use Rattle.std.specs.Prelude.{◌≡◌, ℕ, ◌+◌, ◌*◌, ◌/◌, ◌<◌, ◌≤◌, length};
ghost use Rattle.theory.specs.Places.{Member};
ghost use Rattle.places.specs.Words.{number_of};
ghost use Rattle.verdict.specs.ColumnOffsets.{offset_from};
ghost use Rattle.verdict.specs.Ranges.{Leads, Closing, Closed, Adds, Block, RangeAt, RangesAt, NextAt, Going, EndsAt, NextWithin};
ghost use Rattle.verdict.specs.Ranges.{PlaceNew, ListNew, PlaceReady, ListReady, RangesReady, RangesStepped};

use crate::column_steps::inner;
use crate::columns::put_at;
use crate::rows::row_at;
use crate::tables::Tables;
use crate::ways::Ways;
use crate::wide_rows::offset_from;
use places::Places;

// The places of a block of 64 from k on, of n.
fn block(n: u64, k: u64) -> u64
    requires { k < n }
    ensures { Block n k result }
{
    (n - k).min(64)
}

// Adds the n places of a set from `from` on, at `to`.
fn put_range(set: &[u64], from: u64, to: u64, n: u64, words: &mut [u64])
    requires { (length set.now ≡ 16) × (length words.old ≡ 16) × (from + n ≤ 1024) × (to + n ≤ 1024) }
    ensures { Adds (RangeAt n (number_of set.now) from to) words.old words.new }
{
    let mut k: u64 = 0;
    // A word of places a turn: `step_by` needs a measure of its own, and is no plainer.
    while k < n {
        let len = block(n, k);
        put_at(words, row_at(set, from + k, len), to + k, len);
        k += 64;
    }
}

// Adds the columns of the places that lead to an occurrence, at `to`.
fn join_ranges(set: &[u64], base: u64, from: u64, to: u64, n: u64, words: &mut [u64])
    requires { (length set.now ≡ 16) × (length words.old ≡ 16) × (base ≤ 1024) × (to + n ≤ 1024)
        × ((o : ℕ) → Member o from → n * offset_from base o + n ≤ 1024) }
    ensures { Adds (RangesAt n (number_of set.now) base from to) words.old words.new }
{
    for p in Places(from).members() {
        let o = offset_from(base, p as u64);
        put_range(set, n * o, to, n, words);
    }
}

// Adds the state t, alone, with all that it reaches, where it is not there yet; where it is, so is what it reaches.
fn add_state(reached: &[u64], t: usize, words: &mut [u64])
    requires { (length words.old ≡ 16) × (4 * t + 4 ≤ length reached.now) × (t < 1024)
        × (Member t (number_of words.old) → (u : ℕ) → Leads reached.now t u → Member u (number_of words.old)) }
    ensures { Adds (Leads reached.now t) words.old words.new }
{
    if (words[t / 64] >> ((t % 64) as u64)) & 1 == 1 {
        return;
    }
    for j in 0..4 {
        words[j] |= reached[4 * t + j];
    }
}

// Adds the states that the list v leads to from the states of a word, whose first is `first`.
fn add_states(
    reached: &[u64],
    table: &[u16],
    v: usize,
    first: usize,
    states: u64,
    words: &mut [u64],
)
    requires { (length words.old ≡ 16) × (v < 16) × (first ≤ 1024)
        × ((n : ℕ) × Going n v first reached.now table.now (number_of words.old) states) }
    ensures { Adds (NextAt reached.now table.now v first states) words.old words.new }
{
    for p in Places(states).members() {
        let q = first + p;
        add_state(reached, table[16 * q + v] as usize, words);
    }
}

// Adds the states that are reached where a path of the list v ends at the occurrence whose column stands at `at`.
fn end_range(reached: &[u64], table: &[u16], v: usize, at: u64, n: u64, words: &mut [u64])
    requires { (length words.old ≡ 16) × (v < 16) × (n ≤ at) × (at + n ≤ 1024) × Closing n reached.now
        × Closed n reached.now (number_of words.old) × (16 * n ≤ length table.now) × NextWithin n v table.now }
    ensures { Adds (EndsAt n reached.now table.now v (number_of words.old) at) words.old
        words.new }
{
    let mut k: u64 = 0;
    // A word of places a turn: `step_by` needs a measure of its own, and is no plainer.
    while k < n {
        let len = block(n, k);
        let part = row_at(words, at + k, len);
        add_states(reached, table, v, k as usize, part, words);
        k += 64;
    }
}

// Adds the column of the occurrence p of the list v, and the states that are reached from there where a path of the list may end.
fn place_range(
    tables: Tables<'_>,
    ways: Ways<'_>,
    accepting: u64,
    v: usize,
    p: u64,
    base: u64,
    set: &[u64],
    words: &mut [u64],
)
    requires { (length set.now ≡ 16) × (length words.old ≡ 16)
        × PlaceReady tables.states (number_of set.now) v base p ways.before.now ways.ended.now tables.table.now words.old }
    ensures { let T = tables.entry in let W = ways.entry in Adds (PlaceNew T.states
        (number_of set.now) W.before.now W.ended.now T.table.now accepting v base p) words.old words.new }
{
    let to = tables.states * (base + p);
    join_ranges(
        set,
        base,
        ways.before[64 * v + (p as usize)],
        to,
        tables.states,
        words,
    );
    if (accepting >> p) & 1 == 1 {
        end_range(ways.ended, tables.table, v, to, tables.states, words);
    }
}

// The same for the occurrences of the list v, of `size`, that the label enters.
fn list_ranges(
    tables: Tables<'_>,
    ways: Ways<'_>,
    entered: u64,
    accepting: u64,
    size: u64,
    v: usize,
    base: u64,
    set: &[u64],
    words: &mut [u64],
)
    requires { (length set.now ≡ 16) × (length words.old ≡ 16)
        × ListReady tables.states v base size ways.before.now ways.ended.now tables.table.now words.old }
    ensures { let T = tables.entry in let W = ways.entry in Adds (ListNew T.states
        (number_of set.now) W.before.now W.ended.now T.table.now entered accepting size v base) words.old words.new }
{
    for i in Places(inner(entered, size)).members() {
        let p = 1 + i as u64;
        place_range(tables, ways, accepting, v, p, base, set, words);
    }
}

// The step over the label a of a turned set, into words that are empty before.
pub fn step_ranges(tables: Tables<'_>, ways: Ways<'_>, a: usize, set: &[u64], words: &mut [u64])
    requires { RangesReady tables.states tables.lists tables.enter.now tables.sizes.now tables.accepting.now ways.before.now ways.ended.now
        tables.table.now × (a < 32) × (length set.now ≡ 16) × (length words.old ≡ 16) × (number_of words.old ≡ 0) }
    ensures { let T = tables.entry in let W = ways.entry in RangesStepped T.states T.lists a T.enter.now T.sizes.now T.accepting.now
        W.before.now W.ended.now T.table.now (number_of set.now) (number_of words.new) }
{
    let mut base: u64 = 0;
    for v in 0..tables.lists {
        let x = v + 1;
        let size = tables.sizes[x];
        list_ranges(
            tables,
            ways,
            tables.enter[32 * x + a],
            tables.accepting[x],
            size,
            v,
            base,
            set,
            words,
        );
        base += size;
    }
}
