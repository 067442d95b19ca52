// Pairs (document 01, "Pair") by exploration over the labels, in a lent workspace.
ghost use Rattle.std.specs.Prelude.{◌≡◌, ℕ, ◌+◌, ◌*◌, ◌<◌, ◌≤◌, List, length};
ghost use Rattle.verdict.specs.LentTables.{lent_of, layout_in, ByWay, ByRows};
ghost use Rattle.verdict.specs.PairTable.{Stored};
ghost use Rattle.verdict.specs.Ways.{columns_of, rows_of};
ghost use Rattle.verdict.specs.Workspace.{pair};
ghost use Rattle.verdict.specs.PairIndex.{bucket_of, Indexed, IndexedAll, Short, ShortAll};
ghost use Rattle.verdict.specs.NextCover.{Used};
ghost use Rattle.verdict.specs.PairsTold.{QueryFollows, QueryStep, RowTold, PairsTold};
ghost use Rattle.verdict.specs.Prepared.{FirstReached};

use crate::index::{Index, bucket};
use crate::next_cover::{first_cover, lay, next_cover, used_words};
use crate::tables::Tables;
use crate::ways::Ways;
use finding::step::follows;
use places::Places;

// A job has at most this many labels.
const MOST_LABELS: usize = 32;

// Stores the pair number m, and how it was reached.
fn store(workspace: &mut [u64], m: usize, standing: u64, cover: &[u64; 16], link: u64)
    requires { 18 * m + 18 ≤ length workspace.old }
    ensures { Stored workspace.old m standing cover.now link workspace.new }
{
    let at = 18 * m;
    workspace[at] = standing;
    workspace[at + 1..at + 17].copy_from_slice(cover);
    workspace[at + 17] = link;
}

// Adds the pair number m, of the bucket `at`, to the workspace and to the index.
fn add(
    workspace: &mut [u64],
    index: &mut Index,
    at: usize,
    m: usize,
    standing: u64,
    cover: &[u64; 16],
    link: u64,
)
    requires { (18 * m + 18 ≤ length workspace.old) × (m < 4096) × (length cover.now ≡ 16)
        × (at ≡ bucket_of (pair standing cover.now)) × Indexed workspace.old m index.old.heads index.old.nexts }
    ensures { Stored workspace.old m standing cover.now link workspace.new
        × Indexed workspace.new (m + 1) index.new.heads index.new.nexts }
{
    store(workspace, m, standing, cover, link);
    index.note(at, m);
}

// The places of the query that can come next from a standing.
fn query_follows(follow: &[u64], sizes: &[u64], standing: u64) -> u64
    ensures { QueryFollows follow.now sizes.now standing result }
{
    if sizes.len() == 0 {
        return 0;
    }
    let size = sizes[0];
    if size > 63 {
        return 0;
    }
    if follow.len() < 64 {
        return 0;
    }
    let n = (size + 1) as usize;
    let next = follows(&follow[..n], Places(standing));
    next.0
}

// The standing that the label a leads to, of the places that can come next.
fn query_step(after: u64, enter: &[u64], a: usize) -> u64
    ensures { (follow sizes : List ℕ) (standing : ℕ) → QueryFollows follow sizes standing after
        → QueryStep follow enter.now sizes a standing result }
{
    if enter.len() <= a {
        return 0;
    }
    after & enter[a]
}

// The pairs that the labels lead to from the pair number i: those that are new go behind the n that are found. `laid` is for the columns of one
// set, or for the rows that can come next.
fn row(
    tables: Tables<'_>,
    ways: Ways<'_>,
    limit: usize,
    i: usize,
    n: usize,
    laid: &mut [u64],
    used: usize,
    workspace: &mut [u64],
    index: &mut Index,
) -> Option<u64>
    requires { (i < n) × (n ≤ limit) × (limit ≤ 4096) × (tables.labels ≤ 32) × (18 * limit ≤ length workspace.old)
        × Indexed workspace.old n index.old.heads index.old.nexts × Used tables.states (columns_of ways.way) used
        × Short used workspace.old n × ByWay tables ways × (columns_of ways.way ≤ length laid.old)
        × (0 < rows_of ways.way → ByRows tables ways laid.old) }
    ensures row_told { RowTold (lent_of tables.entry) (layout_in tables.entry ways.entry) limit i n workspace.old result workspace.new }
    ensures indexed { IndexedAll workspace.new index.new.heads index.new.nexts result
        × ShortAll used workspace.new result }
{
    let from = workspace[18 * i];
    lay(tables.states, ways, workspace, i, laid);
    let mut cover: [u64; 16] = [0; 16];
    let after = query_follows(tables.follow, tables.sizes, from);
    let mut m = n;
    for a in 0..tables.labels {
        let standing = query_step(after, tables.enter, a);
        next_cover(tables, ways, a, workspace, i, laid, &mut cover);
        let at = bucket(standing, &cover, used);
        if !index.seen(workspace, at, m, standing, &cover, used) {
            if m == limit {
                return None;
            }
            let link = (a * 8192 + i) as u64;
            add(workspace, index, at, m, standing, &cover, link);
            m += 1;
        }
    }
    Some(m as u64)
}

// All pairs from the first on, as long as there are no more than the limit. The index takes 16 KiB of the thread's stack; `laid` is for
// columns or rows.
fn sweep(
    tables: Tables<'_>,
    ways: Ways<'_>,
    limit: usize,
    first: &[u64; 4],
    laid: &mut [u64],
    workspace: &mut [u64],
) -> Option<u64>
    requires { (0 < limit) × (limit ≤ 4096) × (tables.labels ≤ 32) × (18 * limit ≤ length workspace.old) × ByWay tables ways
        × (0 < columns_of ways.way → FirstReached tables.lists tables.accepting.now tables.table.now first.now)
        × (columns_of ways.way ≤ length laid.old) × (0 < rows_of ways.way → ByRows tables ways laid.old) }
    ensures { PairsTold (lent_of tables.entry) (layout_in tables.entry ways.entry) limit workspace.old result workspace.new }
{
    let mut index = Index {
        heads: [0; 4093],
        nexts: [0; 4096],
    };
    let w = ways.way.columns();
    let used = used_words(tables.states, w);
    let start = first_cover(tables, w, first, used);
    let cover = start.words;
    let at = bucket(1, &cover, used);
    add(workspace, &mut index, at, 0, 1, &cover, 0);
    let mut n: usize = 1;
    let mut i = 0;
    // No `for`: the list grows while it is gone through.
    while i < n {
        let found = row(tables, ways, limit, i, n, laid, used, workspace, &mut index);
        n = found? as usize;
        i += 1;
    }
    Some(n as u64)
}

// All pairs, as long as there are no more than the allowance, which is at most 4,096. Cover sets stand turned where there are columns.
pub fn pairs(
    tables: Tables<'_>,
    ways: Ways<'_>,
    allowance: u64,
    first: &[u64; 4],
    laid: &mut [u64],
    workspace: &mut [u64],
) -> Option<u64>
    requires { ByWay tables ways × (0 < columns_of ways.way → FirstReached tables.lists tables.accepting.now tables.table.now first.now)
        × (columns_of ways.way ≤ length laid.old) × (0 < rows_of ways.way → ByRows tables ways laid.old) }
    ensures { PairsTold (lent_of tables.entry) (layout_in tables.entry ways.entry) allowance workspace.old result workspace.new }
{
    let limit = allowance as usize;
    if limit == 0 {
        return None;
    }
    if limit > 4096 {
        return None;
    }
    if tables.labels > MOST_LABELS {
        return None;
    }
    if workspace.len() < 18 * limit {
        return None;
    }
    sweep(tables, ways, limit, first, laid, workspace)
}
