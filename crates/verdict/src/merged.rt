// Occurrences that the same paths reach are merged: their classes, with what a step needs of them.
ghost use Rattle.std.specs.Prelude.{◌≡◌, ℕ, ◌+◌, ◌*◌, ◌<◌, ◌≤◌, length, slice_index, IfSome};
ghost use Rattle.verdict.specs.LentTables.{MergedIn};
ghost use Rattle.verdict.specs.Tables.{Counted, occupied};

use crate::class_sums::ending_lists;
use crate::classes::classify;
use crate::cover::ready;
use crate::leading::leading;
use crate::stable::merge;
use crate::tables::Tables;

// How many classes there are with that of the states alone, and which: `merged` gets at c the classes that lead to the class c, and at 64 + label
// those that the label enters, `ends` at c the lists a path of which may end there. None where the tables are not in order, or there would be
// more than 63.
pub fn merged_classes(
    tables: Tables<'_>,
    before: &mut [u64],
    keys: &mut [u64],
    classes: &mut [u8],
    merged: &mut [u64; 128],
    ends: &mut [u64; 64],
) -> Option<usize>
    requires { Counted tables.lists tables.sizes.now × (64 * tables.lists ≤ length before.old)
        × (occupied tables.sizes.now 0 tables.lists + 65 ≤ length keys.old)
        × (occupied tables.sizes.now 0 tables.lists < length classes.old) × (slice_index classes.old 0 ≡ 0)
        × ((c : ℕ) → slice_index ends.old c ≡ 0) }
    ensures { IfSome result (λ k. MergedIn tables.entry k merged.new classes.new ends.new) }
{
    if 32 < tables.labels {
        return None;
    }
    let w = ready(tables)?;
    if !leading(tables.follow, tables.sizes, tables.lists, before) {
        return None;
    }
    let k = classify(
        tables.follow,
        tables.enter,
        before,
        tables.sizes,
        tables.lists,
        tables.labels,
        w as usize,
        keys,
        classes,
    )?;
    if !merge(
        tables.enter,
        before,
        tables.sizes,
        tables.lists,
        tables.labels,
        k,
        classes,
        keys,
        merged,
    ) {
        return None;
    }
    ending_lists(tables.sizes, tables.accepting, tables.lists, classes, ends);
    Some(k)
}
