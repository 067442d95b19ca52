// What steps by columns or by ranges need, computed once for all pairs.
ghost use Rattle.std.specs.Prelude.{◌≡◌, ℕ, ◌*◌, ◌<◌, ◌≤◌, true, List, length, slice_index, IfSome};
ghost use Rattle.theory.specs.Places.{Member};
ghost use Rattle.verdict.specs.Classes.{ClassSums, EndingLists};
ghost use Rattle.verdict.specs.Columns.{NextBelow, Finishing, Passing};
ghost use Rattle.verdict.specs.Prepared.{FirstReached, Prepared};
ghost use Rattle.verdict.specs.Sums.{SumsRoom, Sums};

use crate::class_sums::class_sums;
use crate::cover::ready;
use crate::leading::leading;
use crate::passing::{finishing, first_of, passing};
use crate::sums::sum_lists;
use crate::tables::Tables;

// For at most 64 states: the states that are reached where a path of a list ends, with their sums, and those that are reached from the first.
// Whether the tables are in order.
fn prepare_columns(
    table: &[u16],
    accepting: &[u64],
    states: usize,
    lists: usize,
    ended: &mut [u64],
    first: &mut [u64; 4],
) -> bool
    requires { (0 < states) × (states ≤ 64) × (lists ≤ 16) × (lists < length accepting.now) × (16 * states ≤ length table.now)
        × SumsRoom lists states ended.old }
    ensures { result ≡ true → Finishing states lists accepting.now table.now ended.new
        × Sums lists states ended.new × FirstReached lists accepting.now table.now first.new
        × NextBelow states lists table.now }
{
    let mut passes = [0; 64];
    if !passing(accepting, table, states, lists, 1, &mut passes) {
        return false;
    }
    first_of(&passes, 1, first);
    if !finishing(&passes, table, states, lists, ended) {
        return false;
    }
    sum_lists(ended, lists, states);
    true
}

// For at most 64 states by classes: the states that are reached where a path of a list ends at an occurrence of a class, in sums, and those
// that are reached from the first. Whether the tables are in order and have room.
pub fn prepare_classes(
    table: &[u16],
    accepting: &[u64],
    states: usize,
    lists: usize,
    k: usize,
    ends: &[u64; 64],
    ended: &mut [u64],
    first: &mut [u64; 4],
) -> bool
    requires { (0 < states) × (states ≤ 64) × (lists ≤ 16) × (lists < length accepting.now) × (16 * states ≤ length table.now)
        × (k ≤ 63) × (128 ≤ length ended.old) × ((v c : ℕ) → Member v (slice_index ends.now c) → v < lists) }
    ensures { result ≡ true → ((sizes classes : List ℕ) → EndingLists lists sizes accepting.now classes ends.now
        → ClassSums states lists k sizes accepting.now table.now classes ended.new)
        × FirstReached lists accepting.now table.now first.new × NextBelow states lists table.now }
{
    let mut passes = [0; 64];
    if !passing(accepting, table, states, lists, 1, &mut passes) {
        return false;
    }
    first_of(&passes, 1, first);
    class_sums(&passes, table, states, lists, k, ends, ended)
}

// For more states: those that are reached from each state, as four words, and from the first. Whether the tables are in order and have room.
fn prepare_ranges(
    table: &[u16],
    accepting: &[u64],
    states: usize,
    lists: usize,
    reached: &mut [u64],
    first: &mut [u64; 4],
) -> bool
    requires { (0 < states) × (states ≤ 1024) × (lists ≤ 16) × (lists < length accepting.now) × (16 * states ≤ length table.now) }
    ensures { result ≡ true → Passing 4 states lists accepting.now table.now reached.new
        × FirstReached lists accepting.now table.now first.new × NextBelow states lists table.now
        × (4 * states ≤ length reached.new) }
{
    if 256 < states {
        return false;
    }
    if reached.len() < 4 * states {
        return false;
    }
    if !passing(accepting, table, states, lists, 4, reached) {
        return false;
    }
    first_of(reached, 4, first);
    true
}

// The width, where steps by columns or by ranges are prepared. `first` gets the states that are reached from the first.
pub fn prepared(
    tables: Tables<'_>,
    before: &mut [u64],
    ended: &mut [u64],
    first: &mut [u64; 4],
) -> Option<u64>
    requires { (64 * tables.lists ≤ length before.old) × (64 * tables.lists ≤ length ended.old)
        × (tables.states ≤ 64 → SumsRoom tables.lists tables.states ended.old) }
    ensures { let T = tables.entry in IfSome result (λ w. Prepared T.states T.lists T.follow.now T.enter.now T.sizes.now T.accepting.now
        T.table.now w before.new ended.new × FirstReached T.lists T.accepting.now T.table.now first.new) }
{
    if tables.states == 0 {
        return None;
    }
    let w = ready(tables)?;
    if !leading(tables.follow, tables.sizes, tables.lists, before) {
        return None;
    }
    let n = tables.states as usize;
    if tables.states <= 64 {
        if !prepare_columns(
            tables.table,
            tables.accepting,
            n,
            tables.lists,
            ended,
            first,
        ) {
            return None;
        }
        return Some(w);
    }
    if !prepare_ranges(
        tables.table,
        tables.accepting,
        n,
        tables.lists,
        ended,
        first,
    ) {
        return None;
    }
    Some(w)
}
