// Find on the rows of a job.
ghost use Rattle.std.specs.Prelude.{◌*◌, ◌≤◌, IfSome};
ghost use Rattle.finding.specs.ListRows.{job_tables};
ghost use Rattle.finding.specs.NumberIndex.{IsEmpty};
ghost use Rattle.finding.specs.QueryTold.{QueryTold};
ghost use Rattle.finding.specs.FoundTold.{FoundTold};
ghost use Rattle.finding.specs.StatesPart.{StatesPart};
ghost use Rattle.finding.specs.CoreTold.{Lent, UnmergedTold, CoreTold};

use crate::answer::Found;
use crate::clear::clear;
use crate::first::first;
use crate::flags::{accepting_standings, flags};
use crate::images::Images;
use crate::index::Index;
use crate::list_images::list_images;
use crate::merge::merge;
use crate::rows::JobRows;
use crate::standings::Standings;
use crate::states::States;
use places::Places;
use reading::Refused;
use syntax::Refusal;

// The standings of the query, whose automaton is number 0.
fn query_standings(job: JobRows<'_>, limit: u64, standings: &mut Standings) -> Option<u64>
    requires { IsEmpty standings.old.index }
    ensures told { let J = job.entry in QueryTold J.follow.now J.enter.now J.sizes.now J.labels limit result
        standings.new.found standings.new.moves }
    ensures within { IfSome result (λ count. count ≤ limit) }
{
    let end = job.sizes[0] as usize + 1;
    standings.explore(&job.follow[..end], &job.enter[..32], job.labels, limit)
}

// The flags and the first accepted word of n states.
fn found_answer(
    standings: &Standings,
    count: u64,
    accepting: u64,
    states: &States,
    n: u64,
    marks: &mut [u8],
) -> Found
    ensures { let S = states.now in FoundTold standings.now.found count accepting S.found n S.parents S.symbols
        marks.old result marks.new }
{
    let good = accepting_standings(&standings.found, count, Places(accepting));
    flags(&states.found, n, good, marks);
    let first = first(marks, n, &states.parents, &states.symbols);
    Found {
        standings: count,
        states: n,
        first,
    }
}

// The states over the lists, from the standings and their moves, with room for so many images.
fn states_with<const ROOM: usize>(
    job: JobRows<'_>,
    limit: u64,
    count: u64,
    standings: &Standings,
    table: &mut [u16],
    marks: &mut [u8],
) -> Result<Found, Refused>
    requires enough { 64 * job.lists ≤ ROOM }
    requires small { ROOM ≤ 1024 }
    requires few { count ≤ 64 }
    ensures { let J = job.entry in StatesPart (job_tables standings.now.moves count J.labels J.follow.now J.enter.now
        J.sizes.now J.accepting.now) J.lists limit standings.now.found table.old marks.old result
        table.new marks.new }
{
    let mut images = [0; ROOM];
    list_images(
        &standings.moves,
        count,
        job.labels,
        job.lists,
        job.follow,
        job.enter,
        job.sizes,
        job.accepting,
        &mut images,
    );
    clear(table, 4096);
    clear(marks, 256);
    let mut states = States {
        found: [0; 256],
        parents: [0; 256],
        symbols: [0; 256],
        index: Index::new(),
    };
    let images = Images {
        rows: &images,
        standings: count as usize,
        lists: job.lists as usize,
    };
    let Some(n) = states.explore(table, images, limit) else {
        clear(table, 4096);
        return Err(Refused::from(Refusal::TooManyStates));
    };
    Ok(found_answer(standings, count, job.accepting[0], &states, n, marks))
}

// The states over the lists. To zero room for sixteen lists takes longer than to find the states of a small job.
fn find_states(
    job: JobRows<'_>,
    limit: u64,
    count: u64,
    standings: &Standings,
    table: &mut [u16],
    marks: &mut [u8],
) -> Result<Found, Refused>
    requires { count ≤ 64 }
    ensures { let J = job.entry in StatesPart (job_tables standings.now.moves count J.labels J.follow.now J.enter.now
        J.sizes.now J.accepting.now) J.lists limit standings.now.found table.old marks.old result
        table.new marks.new }
{
    if job.lists <= 2 {
        states_with::<128>(job, limit, count, standings, table, marks)
    } else if job.lists <= 4 {
        states_with::<256>(job, limit, count, standings, table, marks)
    } else {
        states_with::<1024>(job, limit, count, standings, table, marks)
    }
}

// The rewriting before states are merged, with at most so many standings and states; there is room for 64 and 256. Where there are more,
// the named parts of the table and of the flags are zeros.
fn explore_rows(
    job: JobRows<'_>,
    most_standings: u64,
    most_states: u64,
    table: &mut [u16],
    marks: &mut [u8],
) -> Result<Found, Refused>
    requires { Lent most_standings most_states table.old marks.old }
    ensures { let J = job.entry in UnmergedTold J.follow.now J.enter.now J.sizes.now J.accepting.now J.labels J.lists
        most_standings most_states table.old marks.old result table.new marks.new }
{
    let mut standings = Standings {
        found: [0; 64],
        moves: [0; 2048],
        index: Index::new(),
    };
    let Some(count) = query_standings(job, most_standings, &mut standings) else {
        clear(table, 4096);
        clear(marks, 256);
        return Err(Refused::from(Refusal::TooManyStandings));
    };
    find_states(job, most_states, count, &standings, table, marks)
}

// Find, with at most so many standings and states; there is room for 64 and 256. Where there are more, the named parts of the table and of
// the flags are zeros. States are counted before they are merged.
pub fn find_rows(
    job: JobRows<'_>,
    most_standings: u64,
    most_states: u64,
    table: &mut [u16],
    marks: &mut [u8],
) -> Result<Found, Refused>
    // There is room for 64 standings and 256 states, and the callers lend the named parts.
    requires { Lent most_standings most_states table.old marks.old }
    ensures { let J = job.entry in CoreTold J.follow.now J.enter.now J.sizes.now J.accepting.now J.labels J.lists
        most_standings most_states table.old marks.old result table.new marks.new }
{
    let found = explore_rows(job, most_standings, most_states, table, marks)?;
    let states = merge(table, marks, job.lists as usize, found.states as usize) as u64;
    Ok(Found { states, ..found })
}
