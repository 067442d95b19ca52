// The query's standings (document 01, "Standing"), by exploration over the labels, and where each label leads from each of them.
ghost use Rattle.std.specs.Prelude.{◌≡◌, ◌<◌, ◌≤◌, length, IfSome};
ghost use Rattle.finding.specs.NumberIndex.{Indexed, IndexedAll, IsEmpty};
ghost use Rattle.finding.specs.StandingsExploring.{standing_task, Room, RowTold, SweepTold};
ghost use Rattle.finding.specs.StandingsTold.{StandingsTold};
ghost use Rattle.finding.specs.Count.{count_standings};

use crate::index::{Index, bucket};
use crate::step::follows;
use places::Places;

// The standings that are found, in their order, and at 32 × standing + label the number of the standing that the label leads to.
#[derive(Drop)]
pub struct Standings {
    pub found: [u64; 64],
    pub moves: [u8; 2048],
    pub index: Index,
}

impl Standings {
    // What the labels lead to from the standing number i. New standings go behind the n that are found; the answer is how many then are, or
    // none where there are more than the limit.
    fn row(
        &mut self,
        follow: &[u64],
        enter: &[u64],
        labels: usize,
        limit: usize,
        i: usize,
        n: usize,
    ) -> Option<usize>
        requires { Room labels limit i n enter.now self.old.found self.old.moves
            × Indexed self.old.found n self.old.index.heads self.old.index.nexts }
        ensures row_told { RowTold (standing_task follow.now enter.now labels limit) i n
            self.old.found self.old.moves result self.new.found self.new.moves }
        ensures kept { (length self.new.found ≡ length self.old.found) × (length self.new.moves ≡ length self.old.moves) }
        ensures indexed { IndexedAll self.new.found self.new.index.heads self.new.index.nexts result }
    {
        let after = follows(follow, Places(self.found[i]));
        let mut m = n;
        for a in 0..labels {
            let next = after.0 & enter[a];
            let at = bucket(next);
            let to = self.index.find_place(&self.found, at, m, next);
            self.moves[32 * i + a] = to as u8;
            if to == m {
                if m == limit {
                    return None;
                }
                self.index.note(at, m - 1);
                self.found[m] = next;
                m += 1;
            }
        }
        Some(m)
    }

    // The rows of all standings, in their order, from the start alone.
    fn sweep(&mut self, follow: &[u64], enter: &[u64], labels: usize, limit: usize) -> Option<usize>
        requires { Room labels limit 0 1 enter.now self.old.found self.old.moves × IsEmpty self.old.index }
        ensures told { SweepTold (standing_task follow.now enter.now labels limit) result
            self.new.found self.new.moves }
        ensures within { IfSome result (λ n. n ≤ limit) }
    {
        self.found[0] = Places::START.0;
        let mut n = 1;
        let mut i = 0;
        // No `for`: the list grows while it is gone through.
        while i < n {
            n = self.row(follow, enter, labels, limit, i, n)?;
            i += 1;
        }
        Some(n)
    }

    // All standings over the labels, at most `limit` of them: how many there are, or none where there are more. There is room for 64
    // standings and 32 labels.
    pub fn explore(&mut self, follow: &[u64], enter: &[u64], labels: u64, limit: u64) -> Option<u64>
        requires { IsEmpty self.old.index }
        ensures standings_told { labels ≤ 32 → labels ≤ length enter.now → limit ≤ 64
            → StandingsTold follow.now enter.now labels limit result self.new.found self.new.moves }
        ensures counted { result ≡ count_standings follow.now enter.now labels limit }
        ensures within { IfSome result (λ n. n ≤ limit) }
    {
        if limit > 64 || labels > 32 || labels as usize > enter.len() || limit == 0 {
            return None;
        }
        let n = self.sweep(follow, enter, labels as usize, limit as usize)?;
        Some(n as u64)
    }
}
