// The images of standings under lists (document 01, "State"), found by a search over the pairs of a list's place and a standing: `reached`
// has for each place of the list the set of the standings that are reached together with it. The tables of `list` and `query` lead over
// labels, from the list's places and from the query's standings.
ghost use Rattle.std.specs.Prelude.{◌≤◌, ◌<◌};

use crate::explore::{Table, next_set};
use crate::label_tables::put_all_places;
use finding::step::follows;
use places::Places;

// 64 places with 64 standings each.
const MOST_PAIRS: u64 = 4096;

// Adds the standings to those reached at the places; whether one of them is new.
fn add_at(places: u64, standings: u64, reached: &mut [u64; 64]) -> bool {
    let mut new = false;
    for p in 0..64 {
        let all = reached[p] | standings;
        if Places(places).has(p as u64) && all != reached[p] {
            reached[p] = all;
            new = true;
        }
    }
    new
}

// Follows all labels from the pairs of the place p; whether a pair is new.
fn follow_labels(
    list: &Table,
    query: &Table,
    labels: usize,
    p: usize,
    reached: &mut [u64; 64],
) -> bool
    requires { (labels ≤ 32) × (p < 64) }
{
    let mut new = false;
    for a in 0..labels {
        let to = next_set(query, a, reached[p]);
        new |= add_at(list[64 * a + p], to, reached);
    }
    new
}

// Follows all labels from all pairs that are reached; whether a pair is new.
fn follow_pairs(list: &Table, query: &Table, labels: usize, reached: &mut [u64; 64]) -> bool
    requires { labels ≤ 32 }
{
    let mut new = false;
    for p in 0..64 {
        new |= follow_labels(list, query, labels, p, reached);
    }
    new
}

// All pairs that labels lead to from those reached: each round but the last finds a new one.
fn reach(list: &Table, query: &Table, labels: usize, reached: &mut [u64; 64])
    requires { labels ≤ 32 }
{
    for _ in 0..MOST_PAIRS {
        if !follow_pairs(list, query, labels, reached) {
            return;
        }
    }
}

// The standings reached at an accepting place.
fn accepted(reached: &[u64; 64], accepting: u64) -> u64 {
    follows(reached, Places(accepting)).0
}

// The standings after the paths of a list from the standing s.
fn image(list: &Table, query: &Table, labels: usize, accepting: u64, s: usize) -> u64
    requires { labels ≤ 32 }
{
    let mut reached = [0; 64];
    reached[0] = Places::one(s as u64).0;
    reach(list, query, labels, &mut reached);
    accepted(&reached, accepting)
}

// The images of n standings under the list v.
fn put_images(
    list: &Table,
    query: &Table,
    labels: usize,
    accepting: u64,
    n: usize,
    v: usize,
    images: &mut Table,
)
    requires { (labels ≤ 32) × (n ≤ 64) × (v < 16) }
{
    for s in 0..n {
        images[64 * v + s] = image(list, query, labels, accepting, s);
    }
}

// The same, where the list's table is made first.
fn put_list(
    follow: &[u64; 1088],
    enter: &[u64; 544],
    accepting: &[u64; 17],
    query: &Table,
    labels: usize,
    n: usize,
    v: usize,
    images: &mut Table,
)
    requires { (labels ≤ 32) × (n ≤ 64) × (v < 16) }
{
    let mut list = [0; 2048];
    let x = v + 1;
    put_all_places(follow, enter, x, labels, &mut list);
    put_images(&list, query, labels, accepting[x], n, v, images);
}

// The images of n standings under all lists, in the table that `explore` goes by.
pub(super) fn put_all_lists(
    follow: &[u64; 1088],
    enter: &[u64; 544],
    accepting: &[u64; 17],
    query: &Table,
    labels: usize,
    lists: usize,
    n: usize,
    images: &mut Table,
)
    requires { (labels ≤ 32) × (lists ≤ 16) × (n ≤ 64) }
{
    for v in 0..lists {
        put_list(follow, enter, accepting, query, labels, n, v, images);
    }
}
