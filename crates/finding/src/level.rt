// The level of a state: how many lists its shortest accepted continuation has. States that have the same continuations have one level, so
// that the levels are the first classes to refine; in a long sequence they spare a round for each state.
ghost use Rattle.std.specs.Prelude.{◌≡◌, ◌<◌, true, length};
ghost use Rattle.finding.specs.TableLent.{StatesLent};
ghost use Rattle.finding.specs.LevelTold.{flag_level, FlagLevels, LeastNext, Lowered, Swept, Levelled};

// States are numbered in the order in which they are reached, so that few sweeps from the last to the first mostly suffice.
const MOST_SWEEPS: usize = 8;

// A table of states over lists, in rows of 16, with a flag for each state.
#[derive(Clone, Copy)]
pub(crate) struct StateTable<'a> {
    pub table: &'a [u16],
    pub flags: &'a [u8],
    pub lists: usize,
    pub states: usize,
    ghost lent: { StatesLent states lists table.now flags.now },
}

fn flag_level(flag: u8) -> u16
    ensures { result ≡ flag_level flag }
{
    if flag == 1 { 0 } else { 256 }
}

impl StateTable<'_> {
    // The levels as far as the flags tell.
    fn flag_levels(&self, levels: &mut [u16; 256])
        requires { length levels.old ≡ 256 }
        ensures { FlagLevels self.now.flags.now self.now.states levels.new }
    {
        for s in 0..self.states {
            levels[s] = flag_level(self.flags[s]);
        }
    }

    // The least level of the next states of s.
    fn least_next(&self, s: usize, levels: &[u16; 256]) -> u16
        requires { s < self.now.states }
        ensures { LeastNext self.now.table.now self.now.lists s levels.now result }
    {
        let mut least = 256;
        for v in 0..self.lists {
            let next = self.table[16 * s + v] as usize;
            least = levels[next].min(least);
        }
        least
    }

    // The level of s falls to one more than that of a next state. Whether it has fallen is returned.
    fn lower(&self, s: usize, levels: &mut [u16; 256]) -> bool
        requires { (s < self.now.states) × (length levels.old ≡ 256) }
        ensures { Lowered self.now.table.now self.now.lists s levels.old levels.new result }
    {
        let level = self.least_next(s, levels) + 1;
        if level < levels[s] {
            levels[s] = level;
            return true;
        }
        false
    }

    // Each state's level falls, from the last state to the first. Whether one has fallen is returned.
    fn sweep(&self, levels: &mut [u16; 256]) -> bool
        requires { length levels.old ≡ 256 }
        ensures { Swept self.now.table.now self.now.lists self.now.states levels.old levels.new result }
    {
        let mut lowered = false;
        for s in (0..self.states).rev() {
            // With |= each level is written, which costs more than to test.
            if self.lower(s, levels) {
                lowered = true;
            }
        }
        lowered
    }

    // The levels of all states; false where they were not found in so many sweeps.
    pub fn find_levels(&self, levels: &mut [u16; 256]) -> bool
        requires { length levels.old ≡ 256 }
        ensures { (length levels.new ≡ 256)
            × (result ≡ true → Levelled self.now.table.now self.now.flags.now self.now.lists self.now.states levels.new) }
    {
        self.flag_levels(levels);
        for _ in 0..MOST_SWEEPS {
            if !self.sweep(levels) {
                return true;
            }
        }
        false
    }
}
