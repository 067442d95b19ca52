// The pairs explored (document 01, "Verdict"), in tables for what steps need: these are as large as the lists and the states ask for.
ghost use Rattle.std.specs.Prelude.{◌≡◌, suc, ◌+◌, ◌*◌, ◌<◌, ◌≤◌, true, false, length, replicate, IfSome, unwrap_or};
ghost use Rattle.verdict.specs.LentTables.{lent_of, MergedIn, Searched};
ghost use Rattle.verdict.specs.PairsTold.{SearchTold};
ghost use Rattle.verdict.specs.Prepared.{WayChosen};
ghost use Rattle.verdict.specs.Sums.{SumsRoom};
ghost use Rattle.verdict.specs.Tables.{Counted, occupied};
ghost use Rattle.verdict.specs.Ways.{columns_of, classed_of, rows_of, SomeWay};

use crate::class_sums::count_ending;
use crate::cover::width;
use crate::merged::merged_classes;
use crate::pairs::pairs;
use crate::prepared::{prepare_classes, prepared};
use crate::tables::Tables;
use crate::ways::{Way, Ways};
use crate::wide_rows::prepare_rows;

// What is known once the pairs are explored: whether their cover sets stand turned, then by how many columns, else 0; and how many pairs
// there are.
#[derive(Clone, Copy)]
pub struct Search {
    pub turned: u64,
    pub found: Option<u64>,
}

// By rows where the width has two words: these are prepared in place of what columns need. The ends of a row are looked for list by list, so
// that with many lists columns are the shorter way.
fn chosen_way(tables: Tables<'_>, width: Option<u64>, before: &mut [u64]) -> Way
    requires { IfSome width (λ w. Counted tables.lists tables.sizes.now × (w ≡ suc (occupied tables.sizes.now 0 tables.lists))
        × (64 * tables.lists + 64 ≤ length tables.follow.now) × (32 * tables.lists + 32 ≤ length tables.enter.now)
        × (tables.lists < length tables.accepting.now)) × (352 ≤ length before.old) }
    ensures chosen { let T = tables.entry in WayChosen T.lists T.follow.now T.enter.now T.sizes.now T.accepting.now (unwrap_or width 0)
        before.old before.new (columns_of result) (rows_of result) }
    ensures some { SomeWay result }
    ensures apart { classed_of result ≡ false }
{
    let Some(w) = width else {
        return Way::Plain;
    };
    if 4 < tables.lists || w <= 64 || 128 < w {
        return Way::Columns(w);
    }
    if prepare_rows(
        tables.follow,
        tables.enter,
        tables.sizes,
        tables.accepting,
        tables.lists,
        before,
    ) {
        return Way::Rows(w);
    }
    Way::Plain
}

// Explores the pairs by columns, by ranges or by rows, with words for what steps need: `before` and `ended` are prepared, `laid` is for
// columns or rows. Each offset has a column of its own, so that no classes are told.
fn explore_in<const ENDED: usize>(
    tables: Tables<'_>,
    allowance: u64,
    workspace: &mut [u64],
) -> Search
    requires counted { Counted tables.lists tables.sizes.now }
    requires room { (1024 ≤ ENDED) × (tables.states ≤ 64 → SumsRoom tables.lists tables.states (replicate ENDED 0)) }
    requires small { ENDED ≤ 5120 }
    ensures { SearchTold (lent_of tables.entry) result.turned allowance workspace.old result.found workspace.new }
{
    let mut before = [0; 1024];
    let mut ended = [0; ENDED];
    let mut laid = [0; 1024];
    let mut first = [0; 4];
    let width = prepared(tables, &mut before, &mut ended, &mut first);
    let way = chosen_way(tables, width, &mut before);
    let turned = way.columns();
    let ways = Ways {
        way,
        before: &before,
        ended: &ended,
        classes: &[0; 1],
    };
    let found = pairs(tables, ways, allowance, &first, &mut laid, workspace);
    Search { turned, found }
}

// Explores the pairs of any lists, each offset with a column of its own. There are no sums where there are more than 64 states.
fn explore_apart(tables: Tables<'_>, allowance: u64, workspace: &mut [u64]) -> Search
    requires { Counted tables.lists tables.sizes.now }
    ensures { SearchTold (lent_of tables.entry) result.turned allowance workspace.old result.found workspace.new }
{
    if tables.states <= 64 {
        explore_in::<5120>(tables, allowance, workspace)
    } else {
        explore_in::<1024>(tables, allowance, workspace)
    }
}

// Explores the pairs by classes, with so many words for the sums. Nothing is done where these have no room.
fn explore_sums<const ENDED: usize>(
    tables: Tables<'_>,
    allowance: u64,
    k: usize,
    merged: &[u64; 128],
    classes: &[u8],
    ends: &[u64; 64],
    laid: &mut [u64],
    workspace: &mut [u64],
) -> Option<Search>
    requires given { MergedIn tables k merged.now classes.now ends.now × (0 < tables.states) × (tables.states ≤ 64)
        × (k ≤ length laid.old) }
    requires room { (128 ≤ ENDED) × (ENDED ≤ 5120) }
    ensures { Searched (lent_of tables.entry) allowance workspace.old result workspace.new }
{
    let mut ended = [0; ENDED];
    let mut first = [0; 4];
    if !prepare_classes(
        tables.table,
        tables.accepting,
        tables.states as usize,
        tables.lists,
        k,
        ends,
        &mut ended,
        &mut first,
    ) {
        return None;
    }
    let ways = Ways {
        way: Way::Classes(k as u64),
        before: merged,
        ended: &ended,
        classes,
    };
    let found = pairs(tables, ways, allowance, &first, laid, workspace);
    Some(Search {
        turned: k as u64,
        found,
    })
}

// The same with as many words for the sums as they need: sixteen for four states of a class at which a path may end, and 128 before them.
fn explore_merged(
    tables: Tables<'_>,
    allowance: u64,
    k: usize,
    merged: &[u64; 128],
    classes: &[u8],
    ends: &[u64; 64],
    laid: &mut [u64],
    workspace: &mut [u64],
) -> Option<Search>
    requires { MergedIn tables k merged.now classes.now ends.now × (0 < tables.states) × (tables.states ≤ 64) × (k ≤ length laid.old) }
    ensures { Searched (lent_of tables.entry) allowance workspace.old result workspace.new }
{
    let words = 32 * ((tables.states as usize + 7) / 8) * count_ending(ends, k);
    if words <= 512 {
        explore_sums::<640>(tables, allowance, k, merged, classes, ends, laid, workspace)
    } else {
        explore_sums::<5120>(tables, allowance, k, merged, classes, ends, laid, workspace)
    }
}

// Explores the pairs by classes, with so many words for what these need. Nothing is done where there would be more than 63 classes.
fn explore_with<const PLACES: usize, const KEYS: usize>(
    tables: Tables<'_>,
    allowance: u64,
    workspace: &mut [u64],
) -> Option<Search>
    requires given { Counted tables.lists tables.sizes.now × (0 < tables.states) × (tables.states ≤ 64) }
    requires room { (64 * tables.lists ≤ PLACES) × (occupied tables.sizes.now 0 tables.lists + 65 ≤ KEYS)
        × (occupied tables.sizes.now 0 tables.lists < PLACES) }
    requires small { (PLACES ≤ 1024) × (KEYS ≤ 1088) }
    ensures { Searched (lent_of tables.entry) allowance workspace.old result workspace.new }
{
    let mut before = [0; PLACES];
    let mut keys = [0; KEYS];
    let mut classes: [u8; PLACES] = [0; PLACES];
    let mut merged: [u64; 128] = [0; 128];
    let mut ends: [u64; 64] = [0; 64];
    let k = merged_classes(
        tables,
        &mut before,
        &mut keys,
        &mut classes,
        &mut merged,
        &mut ends,
    )?;
    explore_merged(
        tables, allowance, k, &merged, &classes, &ends, &mut keys, workspace,
    )
}

// The same in tables of their own: four lists have at most 252 occurrences. To clear more takes longer than the verdict of a small job.
fn explore_classes(tables: Tables<'_>, allowance: u64, workspace: &mut [u64]) -> Option<Search>
    requires { Counted tables.lists tables.sizes.now × (0 < tables.states) × (tables.states ≤ 64) }
    ensures { Searched (lent_of tables.entry) allowance workspace.old result workspace.new }
{
    if tables.lists <= 4 {
        explore_with::<256, 320>(tables, allowance, workspace)
    } else {
        explore_with::<1024, 1088>(tables, allowance, workspace)
    }
}

// Whether the pairs are explored by classes: there are at most 64 states, and rows of two words, which serve at most four lists, are not the
// shorter way, as they are where there are few states and many offsets.
fn by_classes(states: u64, lists: usize, w: u64) -> bool
    ensures { result ≡ true → (0 < states) × (states ≤ 64) }
{
    0 < states && states <= 64 && (4 < lists || w <= 64 || 128 < w || w <= 16 * states)
}

// Explores the pairs: by classes where there are at most 64 states and 63 classes and rows are not the shorter way, else with a column for each
// offset, or by rows.
pub fn explore(tables: Tables<'_>, allowance: u64, workspace: &mut [u64]) -> Search
    requires { Counted tables.lists tables.sizes.now }
    ensures { SearchTold (lent_of tables.entry) result.turned allowance workspace.old result.found workspace.new }
{
    if by_classes(
        tables.states,
        tables.lists,
        width(tables.sizes, tables.lists).unwrap_or(0),
    ) {
        if let Some(search) = explore_classes(tables, allowance, workspace) {
            return search;
        }
    }
    explore_apart(tables, allowance, workspace)
}
