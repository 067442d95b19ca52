// The verdict (document 01, "Verdict"): complete, or the first missed path.
ghost use Rattle.std.specs.Prelude.{◌≡◌, ◌+◌, ◌*◌, ◌<◌, ◌≤◌, length, IfSome, unwrap_or};
ghost use Rattle.places.specs.Words.{number_of};
ghost use Rattle.verdict.specs.LentTables.{lent_of};
ghost use Rattle.verdict.specs.PairTable.{pair_at};
ghost use Rattle.verdict.specs.Missing.{gap, Yields, misses_with, FirstTold};
ghost use Rattle.verdict.specs.VerdictTold.{Placed, Judged, VerdictTold};

use crate::cover::width;
use crate::explore::explore;
use crate::path::{depth, write_path};
use crate::tables::Tables;
use crate::workspace::load;
use places::wide::Wide;
use syntax::Refusal;

// What is told of the query paths.
#[derive(Clone, Copy, Debug, PartialEq, Eq)]
pub enum Verdict {
    // Every query path is yielded: how many distinct pairs there are.
    Complete(u64),
    // The length of the first missed path, and how many distinct pairs there are.
    Missed(u64, u64),
}

// The places of the states that accept, alone, which stand w apart.
fn yielding(flags: &[u8], states: u64, w: u64) -> Wide
    requires { (0 < w) × (states * w ≤ 1024) × (states ≤ length flags.now) }
    ensures { Yields flags.now w states result.words }
{
    let mut set = Wide::EMPTY;
    for q in 0..states {
        if flags[q as usize] == 1 {
            set = set.with_shifted(1, w * q);
        }
    }
    set
}

// Whether the paths of the pair number i are query paths and not yielded.
fn misses(workspace: &[u64], i: usize, ends: u64, yields: Wide) -> bool
    requires { 18 * i + 18 ≤ length workspace.now }
    ensures { result ≡ misses_with ends (number_of yields.words) (pair_at workspace.now i) }
{
    workspace[18 * i] & ends != 0 && !load(workspace, i).meets(yields)
}

// The first of n pairs whose paths are missed.
fn first_missed(workspace: &[u64], n: usize, ends: u64, yields: Wide) -> Option<usize>
    requires { 18 * n ≤ length workspace.now }
    ensures { FirstTold n workspace.now ends (number_of yields.words) result }
{
    for i in 0..n {
        if misses(workspace, i, ends, yields) {
            return Some(i);
        }
    }
    None
}

// How far apart the states alone stand: a width, or side by side where sets stand turned.
fn gap(turned: u64, w: u64) -> u64
    ensures { result ≡ gap turned w }
{
    if turned == 0 { w } else { 1 }
}

// Tells the first missed path of n pairs, and writes it. Cover sets stand turned where `turned` is not 0.
fn judged(
    states: u64,
    flags: &[u8],
    w: u64,
    turned: u64,
    ends: u64,
    n: usize,
    workspace: &[u64],
    path: &mut [u8],
) -> Verdict
    requires { (0 < w) × (states * w ≤ 1024) × (states ≤ length flags.now) × (18 * n ≤ length workspace.now) }
    ensures { Judged states flags.now w turned ends n workspace.now path.old result path.new }
{
    let missed = first_missed(workspace, n, ends, yielding(flags, states, gap(turned, w)));
    let Some(i) = missed else {
        return Verdict::Complete(n as u64);
    };
    let labels = depth(workspace, i);
    write_path(workspace, i, labels, path);
    Verdict::Missed(labels as u64, n as u64)
}

// The width where there are at most so many cover places, of which 1,024 are possible.
fn placed(states: u64, sizes: &[u64], lists: usize, most: u64) -> Option<u64>
    ensures told { Placed states lists sizes.now most (unwrap_or result 0) }
    ensures some { IfSome result (λ w. 0 < w) }
{
    let w = width(sizes, lists)?;
    if most > 1024 {
        return None;
    }
    if states > most {
        return None;
    }
    if states * w > most {
        return None;
    }
    Some(w)
}

// The verdict, with at most so many cover places and at most `allowance` pairs.
pub fn verdict_of(
    tables: Tables<'_>,
    flags: &[u8],
    most: u64,
    allowance: u64,
    workspace: &mut [u64],
    path: &mut [u8],
) -> Result<Verdict, Refusal>
    ensures { VerdictTold (lent_of tables.entry) flags.now most allowance workspace.old path.old result workspace.new path.new }
{
    let Some(w) = placed(tables.states, tables.sizes, tables.lists, most) else {
        return Err(Refusal::TooManyPlaces);
    };
    if (flags.len() as u64) < tables.states {
        return Err(Refusal::TooManyPlaces);
    }
    if tables.accepting.len() == 0 {
        return Err(Refusal::TooManyPlaces);
    }
    let search = explore(tables, allowance, workspace);
    let found = search.found;
    let Some(n) = found else {
        return Err(Refusal::TooManyPairs);
    };
    Ok(judged(
        tables.states,
        flags,
        w,
        search.turned,
        tables.accepting[0],
        n as usize,
        workspace,
        path,
    ))
}
