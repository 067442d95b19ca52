// The images of the standings under the lists (document 01, "Image").
ghost use Rattle.std.specs.Prelude.{◌≡◌, ◌*◌, ◌<◌, ◌≤◌, length, take, drop};
ghost use Rattle.theory.specs.Automaton.{nexts};

use crate::step::follows;
use places::Places;

// The image of each standing under each list, at 64 × list + standing.
#[derive(Clone, Copy)]
pub struct Images<'a> {
    pub rows: &'a [u64],
    pub standings: usize,
    pub lists: usize,
    pub ghost fit: { (standings ≤ 64) × (lists ≤ 16) × (64 * lists ≤ length rows.now) },
}

impl Images<'_> {
    // The state that a list leads to (document 01, "State"): the union of the images of the standings in the state.
    pub fn next_state(self, list: usize, state: u64) -> u64
        requires { list < self.lists }
        ensures { let I = self.entry in result ≡ nexts state (take I.standings (drop (64 * list) I.rows.now)) }
    {
        let from = 64 * list;
        follows(&self.rows[from..from + self.standings], Places(state)).0
    }
}
