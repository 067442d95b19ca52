// How many standings or states a job has, counted beyond Find's limits.
ghost use Rattle.std.specs.Prelude.{◌≤◌};

use crate::explore::explore;
use crate::images::put_all_lists;
use crate::label_tables::{put_all_places, put_all_standings};
use reading::load;
use syntax::Span;

// What Find has a limit for.
#[derive(Clone, Copy, Debug, PartialEq, Eq)]
pub(super) enum Limited {
    Standings,
    States,
}

// The query's standings, of which 128 are counted at most.
fn standings_of(follow: &[u64; 1088], enter: &[u64; 544], labels: usize) -> usize
    requires { labels ≤ 32 }
    ensures { result ≤ 128 }
{
    let mut table = [0; 2048];
    let mut found = [0; 128];
    put_all_places(follow, enter, 0, labels, &mut table);
    explore(&table, labels, &mut found)
}

// The states where the query has at most 64 standings; 512 states are counted at most.
fn states_of(
    follow: &[u64; 1088],
    enter: &[u64; 544],
    accepting: &[u64; 17],
    labels: usize,
    lists: usize,
) -> usize
    requires { (labels ≤ 32) × (lists ≤ 16) }
    ensures { result ≤ 512 }
{
    let mut places = [0; 2048];
    let mut found = [0; 64];
    let mut standings = [0; 2048];
    let mut images = [0; 2048];
    let mut states = [0; 512];
    put_all_places(follow, enter, 0, labels, &mut places);
    let n = explore(&places, labels, &mut found);
    put_all_standings(&places, &found, n, labels, &mut standings);
    put_all_lists(
        follow,
        enter,
        accepting,
        &standings,
        labels,
        lists,
        n,
        &mut images,
    );
    explore(&images, lists, &mut states)
}

// How many a job has of a kind, by the tables that reading filled.
fn count_in(
    follow: &[u64; 1088],
    enter: &[u64; 544],
    accepting: &[u64; 17],
    labels: usize,
    lists: usize,
    kind: Limited,
) -> usize
    requires { (labels ≤ 32) × (lists ≤ 16) }
    ensures { result ≤ 512 }
{
    match kind {
        Limited::Standings => standings_of(follow, enter, labels),
        Limited::States => states_of(follow, enter, accepting, labels, lists),
    }
}

// How many the job of a text has of a kind; none where the text is refused.
pub(super) fn count(text: &[u8], kind: Limited) -> usize
    ensures { result ≤ 512 }
{
    let mut names = [Span::EMPTY; 48];
    let mut follow = [0; 1088];
    let mut enter = [0; 544];
    let mut sizes = [0; 17];
    let mut accepting = [0; 17];
    let told = load(
        text,
        &mut names,
        &mut follow,
        &mut enter,
        &mut sizes,
        &mut accepting,
    );
    match told {
        Ok(job) => count_in(
            &follow,
            &enter,
            &accepting,
            job.labels as usize,
            job.lists as usize,
            kind,
        ),
        Err(_) => 0,
    }
}
