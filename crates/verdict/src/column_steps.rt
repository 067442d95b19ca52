// The step of a cover set by columns, where there are at most 64 states: an occurrence is reached by the states of the places that lead to
// it, and a state alone from the states at whose occurrences a path of a list may end.
ghost use Rattle.std.specs.Prelude.{◌≡◌, suc, ◌+◌, ◌*◌, ◌^◌, ◌<◌, ◌≤◌, length};
ghost use Rattle.theory.specs.Places.{member, when};
ghost use Rattle.places.specs.Words.{number_of};
ghost use Rattle.verdict.specs.Tables.{Counted, occupied};
ghost use Rattle.verdict.specs.Columns.{StatesWithin, PlacesWithin, EndedWithin, Stepped};
ghost use Rattle.verdict.specs.ColumnLists.{Below, PlacesOf, inner_of, joined_of, ListColumns};
ghost use Rattle.verdict.specs.Sums.{Sums};
ghost use Rattle.verdict.specs.TurnedColumns.{column_in};
ghost use Rattle.verdict.specs.Ways.{columns_of};

use crate::columns::put_at;
use crate::sums::ended_of;
use crate::tables::Tables;
use crate::ways::Ways;
use places::Places;
use places::joined::join;

// The columns of the places of a list, all in one: the start's is that of the states alone, the occurrences' come after the offset `base`.
fn joined(columns: &[u64], base: usize, from: u64) -> u64
    requires { Below base from (length columns.now) }
    ensures { result ≡ joined_of columns.now base from }
{
    let start = from & 1;
    let inner = join(columns, base, 1, from - start);
    if start == 1 {
        return columns[0] | inner;
    }
    inner
}

// The occurrences in a set of places, those of a list that has `size` of them, counted from 0.
pub fn inner(set: u64, size: u64) -> u64
    requires { size < 64 }
    ensures { result ≡ inner_of set size }
{
    (set >> 1) & ((1 << size) - 1)
}

// The states where a path may end at their place p, else none.
fn ending(accepting: u64, p: u64, states: u64) -> u64
    requires { p < 64 }
    ensures { result ≡ when (member p accepting) states }
{
    if (accepting >> p) & 1 == 1 {
        return states;
    }
    0
}

// The columns of the occurrences of the list v that the label enters, each of n states, are put into the turned set `words`. The states at
// whose occurrences a path of the list may end are returned.
fn list_columns(
    before: &[u64],
    entered: u64,
    accepting: u64,
    size: u64,
    v: usize,
    base: usize,
    columns: &[u64],
    n: u64,
    words: &mut [u64],
) -> u64
    requires { (v < 16) × (size < 64) × (base + size < length columns.now) × PlacesOf v size before.now × (length words.old ≡ 16)
        × (0 < n) × (n ≤ 64)
        × (n * (base + size + 1) ≤ 1024) × StatesWithin (base + size + 1) n columns.now × (64 * v + 64 ≤ length before.now) }
    ensures { ListColumns v size base entered accepting before.now columns.now (column_in n words.old)
        (column_in n words.new) result }
{
    let mut ends: u64 = 0;
    for i in Places(inner(entered, size)).members() {
        let p = 1 + i;
        let states = joined(columns, base, before[64 * v + p]);
        let over = ending(accepting, p as u64, states);
        if states != 0 {
            put_at(words, states, n * (base + p) as u64, n);
        }
        ends |= over;
    }
    ends
}

// The columns after a step over the label a, each of n states, are put into the turned set `words`, which is empty before.
pub fn step_columns(
    tables: Tables<'_>,
    ways: Ways<'_>,
    a: usize,
    columns: &[u64],
    words: &mut [u64],
)
    requires { Counted tables.lists tables.sizes.now × (a < 32) × (32 * tables.lists + 32 ≤ length tables.enter.now)
        × (tables.lists < length tables.accepting.now) × (columns_of ways.way ≡ suc (occupied tables.sizes.now 0 tables.lists))
        × PlacesWithin tables.lists tables.sizes.now ways.before.now × (length words.old ≡ 16) × (number_of words.old ≡ 0)
        × (0 < tables.states) × (tables.states ≤ 64) × (tables.states * columns_of ways.way ≤ 1024)
        × StatesWithin (columns_of ways.way) tables.states columns.now × EndedWithin tables.states tables.lists ways.ended.now
        × (columns_of ways.way ≤ length columns.now) × (64 * tables.lists ≤ length ways.before.now)
        × Sums tables.lists tables.states ways.ended.now }
    ensures { let T = tables.entry in let W = ways.entry in Stepped T.lists a T.enter.now T.sizes.now T.accepting.now W.before.now
        W.ended.now columns.now (column_in T.states words.new) × (number_of words.new < 2 ^ (T.states * columns_of W.way)) }
{
    let each = 32 * ((tables.states as usize + 7) / 8);
    let mut sums = 64 * tables.lists;
    let mut base: usize = 0;
    let mut alone: u64 = 0;
    for v in 0..tables.lists {
        let x = v + 1;
        let size = tables.sizes[x];
        let ends = list_columns(
            ways.before,
            tables.enter[32 * x + a],
            tables.accepting[x],
            size,
            v,
            base,
            columns,
            tables.states,
            words,
        );
        alone |= ended_of(ways.ended, sums, ends);
        sums += each;
        base += size as usize;
    }
    put_at(words, alone, 0, tables.states);
}
