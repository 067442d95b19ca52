// Where labels lead, in the tables that `explore` goes by: from the places of an expression, and from the standings that are found.
ghost use Rattle.std.specs.Prelude.{◌≤◌, ◌<◌};

use crate::explore::{Table, next_set, place_of};
use places::Places;

// From each place of the expression number x to those that follow it and that the label enters.
fn put_places(follow: &[u64; 1088], entered: u64, x: usize, a: usize, table: &mut Table)
    requires { (x < 17) × (a < 32) }
{
    for p in 0..64 {
        table[64 * a + p] = follow[64 * x + p] & entered;
    }
}

// From the places over all labels.
pub(super) fn put_all_places(
    follow: &[u64; 1088],
    enter: &[u64; 544],
    x: usize,
    labels: usize,
    table: &mut Table,
)
    requires { (x < 17) × (labels ≤ 32) }
{
    for a in 0..labels {
        put_places(follow, enter[32 * x + a], x, a, table);
    }
}

// From each of the n standings found to one standing alone, by its number.
fn put_standings(places: &Table, found: &[u64; 64], n: usize, a: usize, table: &mut Table)
    requires { (a < 32) × (n ≤ 64) }
{
    for s in 0..n {
        let to = place_of(found, n, next_set(places, a, found[s]));
        table[64 * a + s] = Places::one(to as u64).0;
    }
}

// From the standings over all labels.
pub(super) fn put_all_standings(
    places: &Table,
    found: &[u64; 64],
    n: usize,
    labels: usize,
    table: &mut Table,
)
    requires { (labels ≤ 32) × (n ≤ 64) }
{
    for a in 0..labels {
        put_standings(places, found, n, a, table);
    }
}
