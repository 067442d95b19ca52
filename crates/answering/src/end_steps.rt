// Where links lead from a set of recordings, by the ends of the links (ends): the sets of the states that come next get these ends.
ghost use Rattle.std.specs.Prelude.{ℕ, ◌+◌, ◌*◌, ◌<◌, ◌≤◌, length};
ghost use Rattle.theory.specs.Places.{Member};
ghost use Rattle.answering.specs.Pairs.{Has};
ghost use Rattle.answering.specs.EndSteps.{InRows, RowsThere, RowsJoined, Given, MembersFollowed};

use super::end_rows::EndRows;
use super::rows::unite;
use places::Places;

// The four words get the ends in the rows of the members of a set, the rows beginning with the number `row`.
fn join_ends(ends: &[u64], row: usize, set: u64, joined: &mut [u64])
    requires { RowsThere ends.now row set × (4 ≤ length joined.old) }
    ensures { RowsJoined ends.now row set joined.old joined.new }
{
    for p in Places(set).members() {
        unite(joined, 0, ends, 4 * (row + p), 4);
    }
}

// The sets of the states of an image get the recordings of the four words.
fn give_ends(joined: &[u64], image: u64, sets: &mut [u64])
    requires { RowsThere sets.old 0 image × (4 ≤ length joined.now) }
    ensures { Given (Has 4 joined.now 0) image sets.old sets.new }
{
    for t in Places(image).members() {
        unite(sets, 4 * t, joined, 0, 4);
    }
}

// The sets of the states of an image get the ends in the rows of the members of a set.
fn follow_symbol(ends: &[u64], row: usize, set: u64, image: u64, sets: &mut [u64])
    requires { RowsThere ends.now row set × RowsThere sets.old 0 image }
    ensures { Given (InRows ends.now row set) image sets.old sets.new }
{
    if image == 0 {
        return;
    }
    let mut joined: [u64; 4] = [0; 4];
    join_ends(ends, row, set, &mut joined);
    give_ends(&joined, image, sets);
}

// All links of the members of a set, which count recordings from `from` on, are followed from the state s.
pub(super) fn follow_members(turned: EndRows<'_>, from: usize, set: u64, s: usize, sets: &mut [u64])
    requires { (s < turned.sizes.states) × ((p : ℕ) → Member p set → from + p < turned.sizes.recordings) × (from ≤ 256)
        × (4 * turned.sizes.states ≤ length sets.old) }
    ensures { let T = turned.entry in MembersFollowed T.rows.now T.sizes.symbols T.sizes.recordings T.ends.now from set s
        sets.old sets.new }
{
    let sizes = turned.sizes;
    let rows = turned.rows;
    for a in 0..sizes.symbols {
        follow_symbol(
            turned.ends,
            sizes.recordings * a + from,
            set,
            rows[sizes.symbols * s + a],
            sets,
        );
    }
}
