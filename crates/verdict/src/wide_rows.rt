// Cover sets by rows of two words, where there are more than 64 and at most 128 offsets: the row of a state is the set of the offsets that
// its places have, the first word having the first 64 of them. What steps need is prepared once, in 352 words: at 2 × offset the offsets
// that can come next from an offset, at 256 + 2 × label those that a label enters, at 320 + 2 × list those at which a path of a list may
// end.
ghost use Rattle.std.specs.Prelude.{◌≡◌, ℕ, ◌+◌, ◌-◌, ◌*◌, ◌^◌, ◌<◌, ◌≤◌, true, ◌↔◌, length};
ghost use Rattle.theory.specs.Places.{Member};
ghost use Rattle.places.specs.Words.{number_of};
ghost use Rattle.verdict.specs.Columns.{EndedWithin};
ghost use Rattle.verdict.specs.Tables.{Counted, occupied};
ghost use Rattle.verdict.specs.WideRows.{Has, Gained, OccursAt, RowsPrepared, Follows, RowsLaid, LaidWithin, Ends, RowsStepped};
ghost use Rattle.verdict.specs.WideRows.{RowPut, AlonePut};
ghost use Rattle.verdict.specs.ColumnOffsets.{offset_from};
ghost use Rattle.verdict.specs.WideRowsPrepared.{ListSteps, ListEnters};

use crate::column_steps::inner;
use crate::columns::put_at;
use crate::rows::row_at;
use places::Places;
use places::wide::Wide;

// The occurrences in a set of places of a list, which come after the offset `base`, are added to the two words at `at`.
fn add_places(set: u64, size: u64, base: u64, at: usize, rows: &mut [u64])
    requires { (size < 64) × (base + size < 128) × (at + 2 ≤ length rows.old) }
    ensures { Gained at (OccursAt size base set) rows.old rows.new }
{
    let places = Wide::EMPTY.with_shifted(inner(set, size), base + 1);
    let words = places.words;
    rows[at] |= words[0];
    rows[at + 1] |= words[1];
}

// The offset of the place o of a list, whose occurrences come after the offset `base`.
pub fn offset_from(base: u64, o: u64) -> u64
    requires { base + o < 2 ^ 64 }
    ensures { result ≡ offset_from base o }
{
    if o == 0 {
        return 0;
    }
    base + o
}

// What can come next from each place of the list v; false where the start can.
fn list_steps(follow: &[u64], v: usize, size: u64, base: u64, rows: &mut [u64]) -> bool
    requires { (v < 16) × (size < 64) × (base + size < 128) × (64 * v + 128 ≤ length follow.now) × (352 ≤ length rows.old) }
    ensures { result ≡ true → ListSteps v (size + 1) size base follow.now rows.old rows.new }
{
    for o in 0..size + 1 {
        let set = follow[64 * (v + 1) + (o as usize)];
        if set & 1 == 1 {
            return false;
        }
        add_places(set, size, base, 2 * (offset_from(base, o) as usize), rows);
    }
    true
}

// The occurrences of the list v that each label enters.
fn list_enters(enter: &[u64], v: usize, size: u64, base: u64, rows: &mut [u64])
    requires { (v < 16) × (size < 64) × (base + size < 128) × (32 * v + 64 ≤ length enter.now) × (352 ≤ length rows.old) }
    ensures { ListEnters v 32 size base enter.now rows.old rows.new }
{
    for a in 0..32 {
        add_places(enter[32 * (v + 1) + a], size, base, 256 + 2 * a, rows);
    }
}

// Prepares steps by rows; false where the start can come next in a list.
pub fn prepare_rows(
    follow: &[u64],
    enter: &[u64],
    sizes: &[u64],
    accepting: &[u64],
    lists: usize,
    rows: &mut [u64],
) -> bool
    requires { Counted lists sizes.now × (occupied sizes.now 0 lists < 128) × (64 * lists + 64 ≤ length follow.now)
        × (32 * lists + 32 ≤ length enter.now) × (lists < length accepting.now) × (352 ≤ length rows.old) }
    ensures { result ≡ true → RowsPrepared lists follow.now enter.now sizes.now accepting.now
        rows.new }
{
    rows[..352].fill(0);
    let mut base: u64 = 0;
    for v in 0..lists {
        let size = sizes[v + 1];
        if !list_steps(follow, v, size, base, rows) {
            return false;
        }
        list_enters(enter, v, size, base, rows);
        add_places(accepting[v + 1], size, base, 320 + 2 * v, rows);
        base += size;
    }
    true
}

// The offsets that can come next from the offsets of one word of a row, whose entries begin at `first`, are added to the two words at `at`.
fn follow_part(rows: &[u64], part: u64, first: usize, at: usize, laid: &mut [u64])
    requires { (first + 128 ≤ length rows.now) × (at + 2 ≤ length laid.old) }
    ensures { Gained at (Follows rows.now part first) laid.old laid.new }
{
    let mut low: u64 = 0;
    let mut high: u64 = 0;
    for p in Places(part).members() {
        let entry = first + 2 * p;
        low |= rows[entry];
        high |= rows[entry + 1];
    }
    laid[at] |= low;
    laid[at + 1] |= high;
}

// The offsets that can come next from the row of each state of a set, over any label, at 2 × state.
pub fn lay_rows(rows: &[u64], w: u64, states: u64, words: &[u64], laid: &mut [u64])
    requires { (352 ≤ length rows.now) × (64 < w) × (w ≤ 128) × (states * w ≤ 1024) × (length words.now ≡ 16)
        × (2 * states ≤ length laid.old) }
    ensures { RowsLaid w states rows.now (number_of words.now) laid.new }
{
    let mut from: u64 = 0;
    for q in 0..states {
        let at = 2 * (q as usize);
        laid[at] = 0;
        laid[at + 1] = 0;
        follow_part(rows, row_at(words, from, 64), 0, at, laid);
        follow_part(rows, row_at(words, from + 64, w - 64), 128, at, laid);
        from += w;
    }
}

// The states that are reached from the state q where paths of lists end at the offsets of a row.
fn ended_row(rows: &[u64], ended: &[u64], lists: usize, q: usize, low: u64, high: u64) -> u64
    requires { (352 ≤ length rows.now) × (lists ≤ 16) × (64 * lists ≤ length ended.now) × (q < 64) }
    ensures { (t : ℕ) → Member t result ↔ Ends lists rows.now ended.now q (Has low high) t }
{
    let mut alone: u64 = 0;
    for v in 0..lists {
        let at = 320 + 2 * v;
        if (low & rows[at]) | (high & rows[at + 1]) != 0 {
            alone |= ended[64 * v + q];
        }
    }
    alone
}

// Adds the row of two words, of w offsets, at the place `from`.
fn put_row(words: &mut [u64], low: u64, high: u64, from: u64, w: u64)
    requires { (length words.old ≡ 16) × (64 < w) × (w ≤ 128) × (from + w ≤ 1024) × (high < 2 ^ (w - 64)) }
    ensures { RowPut from low high words.old words.new }
{
    put_at(words, low, from, 64);
    put_at(words, high, from + 64, w - 64);
}

// Adds states, alone, which stand w apart.
fn put_alone(w: u64, alone: u64, words: &mut [u64])
    requires { (length words.old ≡ 16) × ((t : ℕ) → Member t alone → w * t < 1024) }
    ensures { AlonePut w alone words.old words.new }
{
    for t in Places(alone).members() {
        put_at(words, 1, w * t as u64, 1);
    }
}

// The step over the label a, of a set of which `laid` has the rows that can come next, into words that are empty before.
pub fn step_rows(
    rows: &[u64],
    ended: &[u64],
    lists: usize,
    a: usize,
    w: u64,
    states: u64,
    laid: &[u64],
    words: &mut [u64],
)
    requires { (352 ≤ length rows.now) × (lists ≤ 16) × (64 * lists ≤ length ended.now) × EndedWithin states lists ended.now
        × (a < 32) × (64 < w) × (w ≤ 128) × (states ≤ 64) × (states * w ≤ 1024) × (2 * states ≤ length laid.now)
        × LaidWithin w states laid.now × (length words.old ≡ 16) × (number_of words.old ≡ 0) }
    ensures { RowsStepped w states lists a rows.now ended.now laid.now
        (number_of words.new) × (number_of words.new < 2 ^ (states * w)) }
{
    let label = 256 + 2 * a;
    let mut alone: u64 = 0;
    let mut from: u64 = 0;
    for q in 0..states as usize {
        let low = laid[2 * q] & rows[label];
        let high = laid[2 * q + 1] & rows[label + 1];
        if low | high != 0 {
            put_row(words, low, high, from, w);
            alone |= ended_row(rows, ended, lists, q, low, high);
        }
        from += w;
    }
    put_alone(w, alone, words);
}
