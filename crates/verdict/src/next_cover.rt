// Cover sets as they stand in the workspace, turned where there are columns: the first one, and the step over a label.
ghost use Rattle.std.specs.Prelude.{◌≡◌, ℕ, suc, ◌+◌, ◌*◌, ◌^◌, ◌<◌, ◌≤◌, length};
ghost use Rattle.places.specs.Words.{number_of};
ghost use Rattle.verdict.specs.Columns.{StatesWithin, PlacesWithin, EndedWithin, Stepped};
ghost use Rattle.verdict.specs.CoverTold.{StartTold, StepStands};
ghost use Rattle.verdict.specs.LentTables.{layout_in};
ghost use Rattle.verdict.specs.NextCover.{Laid, Used};
ghost use Rattle.verdict.specs.PairTable.{words_at};
ghost use Rattle.verdict.specs.Sums.{Sums};
ghost use Rattle.verdict.specs.Tables.{Counted, occupied};
ghost use Rattle.verdict.specs.Turned.{Stacked};
ghost use Rattle.verdict.specs.TurnedColumns.{column_in};
ghost use Rattle.verdict.specs.Ways.{columns_of, classed_of, rows_of};
ghost use Rattle.verdict.specs.WideRows.{RowsLaid};

use crate::class_steps::step_classes;
use crate::column_steps::step_columns;
use crate::columns::columns_at;
use crate::cover::{cover_start, cover_step};
use crate::ranges::step_ranges;
use crate::tables::Tables;
use crate::ways::{Way, Ways};
use crate::wide_rows::{lay_rows, step_rows};
use crate::workspace::load;
use places::wide::Wide;

// The states that are reached from the first, as far as they stand in the first `used` words.
fn reached_words(first: &[u64; 4], used: usize) -> Wide
    ensures { (number_of result.words < 2 ^ (64 * used))
        × (number_of first.now < 2 ^ (64 * used) → number_of result.words ≡ number_of first.now) }
{
    let mut words = [0; 16];
    let count = used.min(4);
    words[..count].copy_from_slice(&first[..count]);
    Wide { words }
}

// The cover set of the empty path. Where it stands turned, it has states alone: those that are reached from the first, in the words that have
// all places of a set.
pub fn first_cover(tables: Tables<'_>, w: u64, first: &[u64; 4], used: usize) -> Wide
    requires { Used tables.states w used }
    ensures { let T = tables.entry in (w ≡ 0 → StartTold T.states T.lists T.follow.now T.enter.now T.sizes.now T.accepting.now T.table.now
        result.words) × (0 < w → number_of first.now < 2 ^ (64 * used) → number_of result.words ≡ number_of first.now)
        × (number_of result.words < 2 ^ (64 * used)) }
{
    if w == 0 {
        return cover_start(tables);
    }
    reached_words(first, used)
}

// How many words have all places of a set as it stands: where it is turned, as many as its w columns need.
pub fn used_words(states: u64, w: u64) -> usize
    requires { 0 < w → states * w ≤ 1024 }
    ensures { Used states w result }
{
    if w == 0 {
        16
    } else {
        ((states * w + 63) / 64) as usize
    }
}

// What all labels have in common of a step from the cover set of the pair number i: its w columns, where it stands turned and steps go by
// them; the rows that can come next, where steps go by rows.
pub fn lay(states: u64, ways: Ways<'_>, workspace: &[u64], i: usize, laid: &mut [u64])
    requires { (0 < columns_of ways.way → (0 < states) × (states * columns_of ways.way ≤ 1024)) × (18 * i + 18 ≤ length workspace.now)
        × (columns_of ways.way ≤ length laid.old) × (0 < rows_of ways.way → (64 < rows_of ways.way) × (rows_of ways.way ≤ 128)
        × (states * rows_of ways.way ≤ 1024) × (352 ≤ length ways.before.now) × (2 * states ≤ length laid.old)) }
    ensures { let W = ways.entry in (rows_of W.way ≡ 0 → 0 < columns_of W.way → states ≤ 64
        → Stacked (columns_of W.way) states laid.new (number_of (words_at workspace.now (18 * i + 1) 16)))
        × (0 < rows_of W.way → RowsLaid (rows_of W.way) states W.before.now (number_of (words_at workspace.now (18 * i + 1) 16)) laid.new) }
{
    let from = 18 * i + 1;
    let to = from + 16;
    match ways.way {
        Way::Plain => {}
        Way::Rows(rows) => lay_rows(ways.before, rows, states, &workspace[from..to], laid),
        Way::Columns(w) | Way::Classes(w) => {
            if states <= 64 {
                columns_at(&workspace[from..to], w, states, laid);
            }
        }
    }
}

// The step by columns, into words that hold a set of before. All sixteen are cleared: their number is known when the code is compiled.
fn step_turned(tables: Tables<'_>, ways: Ways<'_>, a: usize, laid: &[u64], cover: &mut [u64; 16])
    requires { Counted tables.lists tables.sizes.now × (a < 32) × (32 * tables.lists + 32 ≤ length tables.enter.now)
        × (tables.lists < length tables.accepting.now) × (columns_of ways.way ≡ suc (occupied tables.sizes.now 0 tables.lists))
        × PlacesWithin tables.lists tables.sizes.now ways.before.now × (0 < tables.states) × (tables.states ≤ 64)
        × (tables.states * columns_of ways.way ≤ 1024) × StatesWithin (columns_of ways.way) tables.states laid.now
        × EndedWithin tables.states tables.lists ways.ended.now × (columns_of ways.way ≤ length laid.now)
        × (64 * tables.lists ≤ length ways.before.now) × Sums tables.lists tables.states ways.ended.now }
    ensures { let T = tables.entry in let W = ways.entry in Stepped T.lists a T.enter.now T.sizes.now T.accepting.now W.before.now
        W.ended.now laid.now (column_in T.states cover.new) × (number_of cover.new < 2 ^ (T.states * columns_of W.way))
        × (length cover.new ≡ 16) }
{
    *cover = [0; 16];
    step_columns(tables, ways, a, laid, cover);
}

// The step of the cover set of the pair number i over the label a, as sets stand: by classes, by ranges or by columns where they stand turned.
// `laid` has the columns of the set, or the rows that can come next; `cover` has a set of before.
pub fn next_cover(
    tables: Tables<'_>,
    ways: Ways<'_>,
    a: usize,
    workspace: &[u64],
    i: usize,
    laid: &[u64],
    cover: &mut [u64; 16],
)
    requires { Laid tables.states tables.lists tables.follow.now tables.enter.now tables.sizes.now tables.accepting.now tables.table.now
        (columns_of ways.way) (classed_of ways.way) (rows_of ways.way) ways.before.now ways.ended.now ways.classes.now
        (words_at workspace.now (18 * i + 1) 16) laid.now a × (a < 32) × (18 * i + 18 ≤ length workspace.now) }
    ensures { let T = tables.entry in let W = ways.entry in StepStands (layout_in T W) T.states T.lists T.follow.now T.enter.now T.sizes.now
        T.accepting.now T.table.now a (words_at workspace.now (18 * i + 1) 16) cover.new
        × ((used : ℕ) → Used T.states (columns_of W.way) used → number_of cover.new < 2 ^ (64 * used)) × (length cover.new ≡ 16) }
{
    match ways.way {
        Way::Plain => {
            let next = cover_step(tables, a, load(workspace, i));
            let words = next.words;
            *cover = words;
        }
        Way::Rows(rows) => {
            *cover = [0; 16];
            step_rows(
                ways.before,
                ways.ended,
                tables.lists,
                a,
                rows,
                tables.states,
                laid,
                cover,
            );
        }
        Way::Classes(k) => {
            *cover = [0; 16];
            step_classes(ways.before, ways.ended, a, k, laid, tables.states, cover);
        }
        Way::Columns(_) => {
            if 64 < tables.states {
                let from = 18 * i + 1;
                let to = from + 16;
                *cover = [0; 16];
                step_ranges(tables, ways, a, &workspace[from..to], cover);
            } else {
                step_turned(tables, ways, a, laid, cover);
            }
        }
    }
}
