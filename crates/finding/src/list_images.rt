// The images of all lists of a job, at 64 × list + standing.
ghost use Rattle.std.specs.Prelude.{◌≡◌, ℕ, ◌+◌, ◌*◌, ◌<◌, ◌≤◌, length, replicate, slice_index};
ghost use Rattle.finding.specs.ImageSearch.{Fitting};
ghost use Rattle.finding.specs.ListTables.{tables_of};
ghost use Rattle.finding.specs.LentTables.{lent_tables};
ghost use Rattle.finding.specs.RowsFit.{RowsFit};
ghost use Rattle.finding.specs.ListRows.{job_tables, FilledRow, ListTold, Paired, ImagesOf};

use crate::image::images;
use crate::sources::{ListTables, Pending};
use places::Places;

// The tables of a job, and the moves of its query's standings.
#[derive(Clone, Copy)]
struct LentTables<'a> {
    moves: &'a [u8; 2048],
    count: usize,
    labels: usize,
    follow: &'a [u64],
    enter: &'a [u64],
    sizes: &'a [u64; 17],
    accepting: &'a [u64; 17],
}

// The row v, from a list's automaton.
fn fill_row(
    list: ListTables<'_>,
    accepting: u64,
    v: usize,
    pending: &mut Pending,
    moved: &mut [u64; 64],
    sources: &mut [u64],
    rows: &mut [u64],
)
    requires { (v < 16) × (64 * v + 64 ≤ length rows.old) × Fitting (tables_of list)
        × (0 < length list.follow.now) × (list.count * length list.follow.now ≤ length sources.old) × (pending.old.at ≡ replicate 64 0) }
    ensures filled_row { FilledRow (tables_of list.entry) accepting v rows.old rows.new }
    ensures cleared { pending.new.at ≡ replicate 64 0 }
{
    let start = 64 * v;
    images(
        list,
        Places(accepting),
        pending,
        moved,
        sources,
        &mut rows[start..start + 64],
    );
}

// The row of the list v, whose automaton is number v + 1.
fn list_row(
    job: LentTables<'_>,
    v: usize,
    pending: &mut Pending,
    moved: &mut [u64; 64],
    sources: &mut [u64],
    rows: &mut [u64],
)
    requires { (v < 16) × (job.count ≤ 64) × (job.labels ≤ 32) × Paired job.count job.sizes.now v (length sources.old)
        × (64 * v + 64 ≤ length rows.old) × (64 * v + 128 ≤ length job.follow.now) × (32 * v + 64 ≤ length job.enter.now)
        × (pending.old.at ≡ replicate 64 0) }
    ensures list_told { ListTold (lent_tables job.entry) v rows.old rows.new }
    ensures cleared { pending.new.at ≡ replicate 64 0 }
{
    let x = v + 1;
    let size = job.sizes[x] as usize;
    if size > 63 {
        return;
    }
    let from = 64 * x;
    let to = from + size + 1;
    let first = 32 * x;
    let end = first + 32;
    let list = ListTables {
        moves: job.moves,
        count: job.count,
        labels: job.labels,
        follow: &job.follow[from..to],
        enter: &job.enter[first..end],
    };
    fill_row(list, job.accepting[x], v, pending, moved, sources, rows);
}

// The rows of all lists. What the search for sources needs is used for one list after the other.
fn rows_of(job: LentTables<'_>, lists: usize, sources: &mut [u64], rows: &mut [u64])
    requires { (job.count ≤ 64) × (job.labels ≤ 32) × (lists ≤ 16)
        × ((v : ℕ) → v < lists → Paired job.count job.sizes.now v (length sources.old)) × (64 * lists ≤ length rows.old)
        × RowsFit lists job.follow.now job.enter.now }
    ensures { ImagesOf (lent_tables job.entry) lists rows.new }
{
    let mut pending = Pending::new();
    let mut moved = [0; 64];
    for v in 0..lists {
        list_row(job, v, &mut pending, &mut moved, sources, rows);
    }
}

// The same, with so many words for the pairs of each list.
fn rows_in<const WORDS: usize>(job: LentTables<'_>, lists: usize, rows: &mut [u64])
    requires { (WORDS ≤ 4096) × (job.count ≤ 64) × (job.labels ≤ 32) × (lists ≤ 16)
        × ((v : ℕ) → v < lists → Paired job.count job.sizes.now v WORDS) × (64 * lists ≤ length rows.old)
        × RowsFit lists job.follow.now job.enter.now }
    ensures { ImagesOf (lent_tables job.entry) lists rows.new }
{
    let mut sources = [0; WORDS];
    rows_of(job, lists, &mut sources, rows);
}

// The greatest number of occurrences of a list.
fn greatest(sizes: &[u64; 17], lists: usize) -> u64
    requires { lists ≤ 16 }
    ensures { (v : ℕ) → v < lists → slice_index sizes.now (v + 1) ≤ result }
{
    let mut most = 0;
    for v in 0..lists {
        most = sizes[v + 1].max(most);
    }
    most
}

// How many words are enough for the pairs of each list; 4,096 are for any.
fn words_for(sizes: &[u64; 17], lists: usize, count: usize) -> usize
    requires { (lists ≤ 16) × (count ≤ 64) }
    ensures { (v : ℕ) → v < lists → Paired count sizes.now v result }
{
    let most = greatest(sizes, lists) as usize;
    if most < 64 { count * (most + 1) } else { 4096 }
}

// The rows, where there are so few standings, labels and lists. To zero more words than are used takes longer than to search a small list.
fn rows_for(job: LentTables<'_>, lists: usize, rows: &mut [u64])
    requires { (job.count ≤ 64) × (job.labels ≤ 32) × (lists ≤ 16) × (64 * lists ≤ length rows.old)
        × RowsFit lists job.follow.now job.enter.now }
    ensures { ImagesOf (lent_tables job.entry) lists rows.new }
{
    let words = words_for(job.sizes, lists, job.count);
    if words <= 128 {
        rows_in::<128>(job, lists, rows);
    } else if words <= 512 {
        rows_in::<512>(job, lists, rows);
    } else if words <= 1024 {
        rows_in::<1024>(job, lists, rows);
    } else {
        rows_in::<4096>(job, lists, rows);
    }
}

// The rows of all lists, where `rows` is long enough. There is room for 64 standings, 32 labels and 16 lists.
pub fn list_images(
    moves: &[u8; 2048],
    count: u64,
    labels: u64,
    lists: u64,
    follow: &[u64],
    enter: &[u64],
    sizes: &[u64; 17],
    accepting: &[u64; 17],
    rows: &mut [u64],
)
    requires { RowsFit lists follow.now enter.now }
    ensures { lists ≤ 16 → 64 * lists ≤ length rows.old
        → ImagesOf (job_tables moves.now count labels follow.now enter.now sizes.now
        accepting.now) lists rows.new }
{
    if lists > 16 || rows.len() < 64 * (lists as usize) || count > 64 || labels > 32 {
        return;
    }
    let job = LentTables {
        moves,
        count: count as usize,
        labels: labels as usize,
        follow,
        enter,
        sizes,
        accepting,
    };
    rows_for(job, lists as usize, rows);
}
