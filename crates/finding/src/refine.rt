// Partition refinement: the classes of states with the same continuations, each named by its first state. States that differ from the
// first of their class in the flag, or in the classes of their next states, leave it together, until none does.
ghost use Rattle.std.specs.Prelude.{◌≡◌, ℕ, ◌<◌, ◌≤◌, true, ◌↔◌, length};
ghost use Rattle.theory.specs.Leaders.{Led};
ghost use Rattle.theory.specs.Refinement.{class_at};
ghost use Rattle.finding.specs.ClassesTold.{key_at, Classed, SameRows, SplitKey, SplitKeys, Refined};

use crate::level::StateTable;

// The class of a state is named by the first state with its key. A first state is looked up by the key; where none is noted yet, the start
// stands there, and its own key tells.
fn class_keys(keys: &[u16; 256], states: usize, classes: &mut [u8; 256])
    requires { (states ≤ 256) × ((s : ℕ) → s < states → key_at keys.now s < 512) × (length classes.old ≡ 256) }
    ensures { Classed keys.now states classes.new }
{
    let mut firsts: [u8; 512] = [0; 512];
    for s in 0..states {
        let key = keys[s];
        let first = firsts[key as usize];
        if keys[first as usize] == key {
            classes[s] = first;
        } else {
            firsts[key as usize] = s as u8;
            classes[s] = s as u8;
        }
    }
}

impl StateTable<'_> {
    // Whether two states have the same flag and next states in the same classes.
    fn alike(&self, classes: &[u8; 256], s: usize, t: usize) -> bool
        requires { (s < self.now.states) × (t < self.now.states) }
        ensures { (result ≡ true) ↔ SameRows self.now.table.now self.now.flags.now self.now.lists classes.now s t }
    {
        if self.flags[s] != self.flags[t] {
            return false;
        }
        for v in 0..self.lists {
            let next = self.table[16 * s + v] as usize;
            let other = self.table[16 * t + v] as usize;
            if classes[next] != classes[other] {
                return false;
            }
        }
        true
    }

    // The key of a state in a split: its class where it is like the first of it, else 256 more.
    fn split_key(&self, classes: &[u8; 256], s: usize) -> u16
        requires { (s < self.now.states) × (class_at classes.now s < self.now.states) }
        ensures { SplitKey self.now.table.now self.now.flags.now self.now.lists classes.now s result }
    {
        let first = classes[s] as u16;
        if self.alike(classes, first as usize, s) {
            return first;
        }
        256 + first
    }

    // The keys of all states in a split. Whether some state leaves its class is returned.
    fn split_keys(&self, classes: &[u8; 256], keys: &mut [u16; 256]) -> bool
        requires { Led self.now.states (class_at classes.now) × (length keys.old ≡ 256) }
        ensures { SplitKeys self.now.table.now self.now.flags.now self.now.lists self.now.states classes.now keys.new result }
    {
        let mut leaves = false;
        for s in 0..self.states {
            let key = self.split_key(classes, s);
            keys[s] = key;
            leaves |= 256 <= key;
        }
        leaves
    }

    // The classes of states with the same continuations, from one class of all; of states whose levels are found, from those of each level.
    pub fn refine(&self, classes: &mut [u8; 256])
        requires { ((s : ℕ) → s < self.now.states → class_at classes.old s ≡ 0) × (length classes.old ≡ 256) }
        ensures { Refined self.now.table.now self.now.flags.now self.now.lists self.now.states classes.new }
    {
        let mut keys: [u16; 256] = [0; 256];
        if self.find_levels(&mut keys) {
            class_keys(&keys, self.states, classes);
        }
        // Nothing is counted: rounds go on until no state leaves its class.
        while self.split_keys(classes, &mut keys) {
            class_keys(&keys, self.states, classes);
        }
    }
}
