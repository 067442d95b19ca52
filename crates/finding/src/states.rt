// The states of list words (document 01, "State"), by exploration over the lists. The lent table gets at 16 × state + list the next state.
ghost use Rattle.std.specs.Prelude.{◌<◌, ◌≤◌, length};
ghost use Rattle.finding.specs.NumberIndex.{Indexed, IndexedAll, IsEmpty};
ghost use Rattle.finding.specs.StatesTold.{StatesTold};
ghost use Rattle.finding.specs.StatesExploring.{memory_of, Room, SameSizes, Extended, Swept, AllSwept};

use crate::images::Images;
use crate::index::{Index, bucket};
use places::Places;

// The states that are found, in their order, and for each after the first the state and the list that it was first reached from.
#[derive(Drop)]
pub struct States {
    pub found: [u64; 256],
    pub parents: [u8; 256],
    pub symbols: [u8; 256],
    pub index: Index,
}

impl States {
    // State s over one list, with n states found.
    fn extend(
        &mut self,
        table: &mut [u16],
        images: Images<'_>,
        limit: usize,
        s: usize,
        list: usize,
        n: usize,
    ) -> Option<usize>
        requires { (list < images.lists) × (s < n) × (n ≤ limit) × Room limit (memory_of self.old table.old)
            × Indexed self.old.found n self.old.index.heads self.old.index.nexts }
        ensures extended { let I = images.entry in Extended I.rows.now I.standings limit s list n
            (memory_of self.old table.old) result (memory_of self.new table.new) }
        ensures kept { SameSizes (memory_of self.old table.old) (memory_of self.new table.new) }
        ensures indexed { IndexedAll self.new.found self.new.index.heads self.new.index.nexts result }
    {
        let next = images.next_state(list, self.found[s]);
        let at = bucket(next);
        let place = self.index.find_place(&self.found, at, n, next);
        if place < n {
            table[16 * s + list] = place as u16;
            return Some(n);
        }
        if n >= limit {
            return None;
        }
        self.index.note(at, n - 1);
        self.found[n] = next;
        self.parents[n] = s as u8;
        self.symbols[n] = list as u8;
        table[16 * s + list] = n as u16;
        Some(n + 1)
    }

    // State s over all lists.
    fn row(
        &mut self,
        table: &mut [u16],
        images: Images<'_>,
        limit: usize,
        s: usize,
        n: usize,
    ) -> Option<usize>
        requires { (s < n) × (n ≤ limit) × Room limit (memory_of self.old table.old)
            × Indexed self.old.found n self.old.index.heads self.old.index.nexts }
        ensures swept { let I = images.entry in Swept I.rows.now I.standings I.lists limit s n
            (memory_of self.old table.old) result (memory_of self.new table.new) }
        ensures kept { SameSizes (memory_of self.old table.old) (memory_of self.new table.new) }
        ensures indexed { IndexedAll self.new.found self.new.index.heads self.new.index.nexts result }
    {
        let mut m = n;
        for list in 0..images.lists {
            m = self.extend(table, images, limit, s, list, m)?;
        }
        Some(m)
    }

    // The rows of all states, in their order, from the start alone.
    fn sweep(&mut self, table: &mut [u16], images: Images<'_>, limit: usize) -> Option<usize>
        requires { (0 < limit) × Room limit (memory_of self.old table.old) × IsEmpty self.old.index }
        ensures { let I = images.entry in AllSwept I.rows.now I.standings I.lists limit table.old result
            (memory_of self.new table.new) }
    {
        self.found[0] = Places::START.0;
        let mut n = 1;
        let mut s = 0;
        // No `for`: the list grows while it is gone through.
        while s < n {
            n = self.row(table, images, limit, s, n)?;
            s += 1;
        }
        Some(n)
    }

    // All states over the lists, at most `limit` of them: how many there are, or none where there are more. There is room for 256 states.
    pub fn explore(&mut self, table: &mut [u16], images: Images<'_>, limit: u64) -> Option<u64>
        requires { IsEmpty self.old.index }
        ensures { let I = images.entry in limit ≤ 256 → 4096 ≤ length table.old
            → StatesTold I.rows.now I.standings I.lists limit table.old result
            self.new.found self.new.parents self.new.symbols table.new }
    {
        if limit == 0 || limit > 256 || table.len() < 4096 {
            return None;
        }
        let n = self.sweep(table, images, limit as usize)?;
        Some(n as u64)
    }
}
