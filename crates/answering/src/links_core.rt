// Marks by the standings of one expression, on plain data: its automaton, a table of links and a start.
ghost use Rattle.std.specs.Prelude.{◌≤◌, length};
ghost use Rattle.finding.specs.Plain.{plain};
ghost use Rattle.answering.specs.FewPlaces.{FewStandings};
ghost use Rattle.answering.specs.LinksCore.{Lent, StandingsMarked, LinksGiven, LinksTold};

use super::indexed::Indexed;
use super::marks::mark;
use super::place_rows::few_places;
use super::place_search::search_any;
use finding::clear::clear;
use finding::count::count_standings;

// Whether there are at most 64 standings: few places have no more, and those of others are explored.
fn few_standings(follow: &[u64], enter: &[u64], labels: u64) -> bool
    ensures { labels ≤ 32 → labels ≤ length enter.now
        → FewStandings follow.now enter.now labels result }
{
    if few_places(follow) {
        return true;
    }
    count_standings(follow, enter, labels, 64).is_some()
}

// The marks by the places of an automaton, over a table of its labels: a recording is marked where some accepting place is reached; the
// number of ones is returned. The words are zero at the end.
fn mark_places(
    follow: &[u64],
    enter: &[u64],
    accepting: u64,
    links: Indexed<'_>,
    start: u64,
    marks: &mut [u8],
    workspace: &mut [u64],
) -> u64
    ensures { LinksGiven enter.now links.entry.symbols links.entry.table.now links.entry.recordings
        → Lent links.entry.recordings start marks.old workspace.old
        → StandingsMarked (plain follow.now enter.now accepting) links.entry.symbols links.entry.recordings
        links.entry.table.now start marks.old workspace.old marks.new workspace.new result }
{
    search_any(follow, enter, accepting, links, start, workspace);
    let accepts: [u64; 4] = [accepting, 0, 0, 0];
    let ones = mark(workspace, 1, &accepts, links.recordings, marks);
    clear(workspace, links.recordings as usize);
    ones
}

// The marks by the standings of an automaton, over a table of its labels, and the number of ones; where there are more than 64 standings,
// zeros, and none. The words are zero at the end.
pub(super) fn mark_links(
    follow: &[u64],
    enter: &[u64],
    accepting: u64,
    links: Indexed<'_>,
    start: u64,
    marks: &mut [u8],
    workspace: &mut [u64],
) -> Option<u64>
    ensures { LinksGiven enter.now links.entry.symbols links.entry.table.now links.entry.recordings
        → Lent links.entry.recordings start marks.old workspace.old
        → LinksTold (plain follow.now enter.now accepting) links.entry.symbols links.entry.recordings
        links.entry.table.now start marks.old workspace.old result marks.new workspace.new }
{
    if few_standings(follow, enter, links.symbols) {
        return Some(mark_places(follow, enter, accepting, links, start, marks, workspace));
    }
    clear(marks, links.recordings as usize);
    clear(workspace, links.recordings as usize);
    None
}
