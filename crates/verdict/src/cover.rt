// Cover places (document 01, "Cover place"): a set of them is a wide set, the place of the state q with the offset o is width × q + o. The
// automata of the lists stand side by side in lent tables, a list's number plus 1 being its row.
ghost use Rattle.std.specs.Prelude.{◌≡◌, ◌+◌, ◌*◌, ◌<◌, ◌≤◌, length, IfSome, unwrap_or};
ghost use Rattle.verdict.specs.Tables.{Counted};
ghost use Rattle.verdict.specs.CoverLoops.{end_at};
ghost use Rattle.verdict.specs.CoverTold.{Gains, Moving, Entered, MovedWithin, Moves, Moved, Ending, Passed, Finished, Ends, Round, Settled};
ghost use Rattle.verdict.specs.CoverTold.{WidthTold, ReadyTold, StartTold, StepTold};

use crate::rows::step_at;
use crate::tables::Tables;
use places::Places;
use places::wide::Wide;
use places::words::{add_shifted, next_place};

// Adds the places that the label a enters, from the start of each list, behind the place `from` of a state alone.
fn entered(
    follow: &[u64],
    enter: &[u64],
    sizes: &[u64],
    lists: usize,
    a: usize,
    w: u64,
    from: u64,
    into: &mut [u64],
)
    requires { Moving lists a follow.now enter.now sizes.now w × (from ≤ 1024) × (length into.old ≡ 16) }
    ensures { Entered lists a follow.now enter.now sizes.now from into.old into.new }
{
    let mut base: u64 = 0;
    for v in 0..lists {
        add_shifted(into, step_at(follow, enter, v, 0, a), from + base);
        base += sizes[v + 1];
    }
}

// Adds the places that the label a leads to from the occurrence at the offset o.
fn moved_within(
    follow: &[u64],
    enter: &[u64],
    sizes: &[u64],
    lists: usize,
    a: usize,
    w: u64,
    from: u64,
    o: u64,
    into: &mut [u64],
)
    requires { Moving lists a follow.now enter.now sizes.now w × (from ≤ 1024) × (length into.old ≡ 16) }
    ensures { MovedWithin lists a follow.now enter.now sizes.now from o into.old into.new }
{
    let mut base: u64 = 0;
    let mut rest = o;
    for v in 0..lists {
        let size = sizes[v + 1];
        if rest <= size {
            add_shifted(
                into,
                step_at(follow, enter, v, rest as usize, a),
                from + base,
            );
            return;
        }
        rest -= size;
        base += size;
    }
}

// Adds the cover places that the label a leads to from the place p.
fn moves(
    follow: &[u64],
    enter: &[u64],
    sizes: &[u64],
    lists: usize,
    a: usize,
    w: u64,
    p: u64,
    into: &mut [u64],
)
    requires { Moving lists a follow.now enter.now sizes.now w × (p ≤ 1024) × (length into.old ≡ 16) }
    ensures { Moves lists a follow.now enter.now sizes.now p into.old into.new }
{
    let from = w * (p / w);
    let o = p % w;
    if o == 0 {
        entered(follow, enter, sizes, lists, a, w, from, into);
    } else {
        moved_within(follow, enter, sizes, lists, a, w, from, o, into);
    }
}

// The cover places that the label a leads to from the first `count` places, those that are in the set.
fn moved(
    follow: &[u64],
    enter: &[u64],
    sizes: &[u64],
    lists: usize,
    a: usize,
    w: u64,
    count: u64,
    set: Wide,
) -> Wide
    requires { Moving lists a follow.now enter.now sizes.now w × (count ≤ 1024) }
    ensures { Moved lists a follow.now enter.now sizes.now count set.words result.words }
{
    let places = set.words;
    let mut words = [0; 16];
    let mut p = next_place(&places, 0);
    // From place to place, up to `count` alone: no plainer as an iterator of a wide set.
    while p < count {
        moves(follow, enter, sizes, lists, a, w, p, &mut words);
        p = next_place(&places, p + 1);
    }
    Wide { words }
}

// Adds the state that is reached from the state q where a path of the list v may end at its place o.
fn ended(accepting: &[u64], table: &[u16], w: u64, v: usize, o: u64, q: usize, into: &mut [u64])
    requires { (v < 16) × (v + 1 < length accepting.now) × (q < 1024) × (16 * q + 16 ≤ length table.now) × (w ≤ 1024)
        × (length into.old ≡ 16) }
    ensures { Gains into.old (end_at accepting.now table.now w v o q) into.new }
{
    let ends = Places(accepting[v + 1]);
    if ends.has(o) {
        add_shifted(into, 1, w * (table[16 * q + v] as u64));
    }
}

// Adds the states that the lists with the empty path lead to.
fn passed(accepting: &[u64], table: &[u16], lists: usize, w: u64, q: usize, into: &mut [u64])
    requires { (lists ≤ 16) × (lists < length accepting.now) × (q < 1024) × (16 * q + 16 ≤ length table.now) × (w ≤ 1024)
        × (length into.old ≡ 16) }
    ensures { Passed lists accepting.now table.now w q into.old into.new }
{
    for v in 0..lists {
        ended(accepting, table, w, v, 0, q, into);
    }
}

// Adds the state that is reached where a path may end at the occurrence at the offset o.
fn finished(
    sizes: &[u64],
    accepting: &[u64],
    table: &[u16],
    lists: usize,
    w: u64,
    o: u64,
    q: usize,
    into: &mut [u64],
)
    requires { Counted lists sizes.now × (lists < length accepting.now) × (q < 1024) × (16 * q + 16 ≤ length table.now) × (w ≤ 1024)
        × (length into.old ≡ 16) }
    ensures { Finished lists sizes.now accepting.now table.now w o q into.old into.new }
{
    let mut rest = o;
    for v in 0..lists {
        let size = sizes[v + 1];
        if rest <= size {
            ended(accepting, table, w, v, rest, q, into);
            return;
        }
        rest -= size;
    }
}

// Adds the cover places that the place p reaches without reading a label.
fn ends(
    sizes: &[u64],
    accepting: &[u64],
    table: &[u16],
    states: u64,
    lists: usize,
    w: u64,
    p: u64,
    into: &mut [u64],
)
    requires { Ending states lists sizes.now accepting.now table.now w × (p < states * w) × (length into.old ≡ 16) }
    ensures { Ends lists sizes.now accepting.now table.now p into.old into.new }
{
    let q = (p / w) as usize;
    let o = p % w;
    if o == 0 {
        passed(accepting, table, lists, w, q, into);
    } else {
        finished(sizes, accepting, table, lists, w, o, q, into);
    }
}

// A set with what the places of `fresh` reach without reading a label, one step far.
fn round(
    sizes: &[u64],
    accepting: &[u64],
    table: &[u16],
    states: u64,
    lists: usize,
    w: u64,
    fresh: Wide,
    set: Wide,
) -> Wide
    requires { Ending states lists sizes.now accepting.now table.now w }
    ensures { Round lists sizes.now accepting.now table.now (states * w) fresh.words set.words result.words }
{
    let count = states * w;
    let places = fresh.words;
    let mut words = set.words;
    let mut p = next_place(&places, 0);
    // From place to place, up to `count` alone: no plainer as an iterator of a wide set.
    while p < count {
        ends(sizes, accepting, table, states, lists, w, p, &mut words);
        p = next_place(&places, p + 1);
    }
    Wide { words }
}

// A set of cover places with all that is reached from it without reading a label: rounds until nothing is added, each of which follows what
// the one before it added.
fn settled(
    sizes: &[u64],
    accepting: &[u64],
    table: &[u16],
    states: u64,
    lists: usize,
    w: u64,
    first: Wide,
) -> Wide
    requires { Ending states lists sizes.now accepting.now table.now w }
    ensures { Settled states lists sizes.now accepting.now table.now first.words result.words }
{
    let count = states * w;
    let mut set = first;
    let mut fresh = first;
    for _round in 0..count {
        let next = round(sizes, accepting, table, states, lists, w, fresh, set);
        if next.same(set) {
            return set;
        }
        fresh = next.without(set);
        set = next;
    }
    set
}

// The number of offsets, 1 + all occurrences in all lists; none where there are more than 16 lists, or one has more than 63 occurrences.
pub fn width(sizes: &[u64], lists: usize) -> Option<u64>
    ensures told { WidthTold lists sizes.now (unwrap_or result 0) }
    ensures some { IfSome result (λ w. 0 < w) }
{
    if lists > 16 {
        return None;
    }
    if sizes.len() <= lists {
        return None;
    }
    let mut w: u64 = 1;
    for v in 0..lists {
        let size = sizes[v + 1];
        if size > 63 {
            return None;
        }
        w += size;
    }
    Some(w)
}

// The width where the tables have room for the lists and the states and there are at most 1,024 cover places.
pub fn ready(tables: Tables<'_>) -> Option<u64>
    ensures told { let T = tables.entry in ReadyTold T.states T.lists T.follow.now T.enter.now T.sizes.now T.accepting.now T.table.now
        (unwrap_or result 0) }
    ensures some { IfSome result (λ w. 0 < w) }
{
    let w = width(tables.sizes, tables.lists)?;
    if tables.follow.len() < 64 * tables.lists + 64 {
        return None;
    }
    if tables.enter.len() < 32 * tables.lists + 32 {
        return None;
    }
    if tables.accepting.len() <= tables.lists {
        return None;
    }
    if tables.states > 1024 {
        return None;
    }
    if tables.table.len() < 16 * (tables.states as usize) {
        return None;
    }
    if tables.states * w > 1024 {
        return None;
    }
    Some(w)
}

// The cover places that the empty path reaches.
pub fn cover_start(tables: Tables<'_>) -> Wide
    ensures { let T = tables.entry in StartTold T.states T.lists T.follow.now T.enter.now T.sizes.now T.accepting.now T.table.now
        result.words }
{
    let Some(w) = ready(tables) else {
        return Wide::EMPTY;
    };
    settled(
        tables.sizes,
        tables.accepting,
        tables.table,
        tables.states,
        tables.lists,
        w,
        Wide::one(0),
    )
}

// The step of a cover set over the label a.
pub fn cover_step(tables: Tables<'_>, a: usize, set: Wide) -> Wide
    ensures { let T = tables.entry in StepTold T.states T.lists T.follow.now T.enter.now T.sizes.now T.accepting.now T.table.now a
        set.words result.words }
{
    let Some(w) = ready(tables) else {
        return Wide::EMPTY;
    };
    if a >= 32 {
        return Wide::EMPTY;
    }
    let next = moved(
        tables.follow,
        tables.enter,
        tables.sizes,
        tables.lists,
        a,
        w,
        tables.states * w,
        set,
    );
    settled(
        tables.sizes,
        tables.accepting,
        tables.table,
        tables.states,
        tables.lists,
        w,
        next,
    )
}
