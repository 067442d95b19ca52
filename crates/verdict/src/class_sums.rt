// The states that are reached where a path of a list ends at an occurrence of a class, from each state, in sums of four states (sums.rt).
ghost use Rattle.std.specs.Prelude.{◌≡◌, ℕ, ◌+◌, ◌*◌, ◌<◌, ◌≤◌, true, List, length, slice_index};
ghost use Rattle.theory.specs.Places.{Member};
ghost use Rattle.verdict.specs.Columns.{NextBelow, Passing};
ghost use Rattle.verdict.specs.Tables.{Counted, occupied};
ghost use Rattle.verdict.specs.Classes.{EndingLists, ClassSums};
ghost use Rattle.verdict.specs.ClassSumsTurns.{ListEnds, reached_by, WordsBefore};

use crate::classes::class_at;
use crate::column_steps::inner;
use crate::sums::sum_list;
use places::Places;

// The list v is put down for the classes of the occurrences of a set, which come after the offset `base` and are counted from 0.
fn end_list(set: u64, base: usize, v: u64, classes: &[u8], ends: &mut [u64])
    requires { (v < 64) × (length ends.old ≡ 64)
        × ((i : ℕ) → Member i set → (base + 1 + i < length classes.now) × (slice_index classes.now (base + 1 + i) < 64)) }
    ensures { ListEnds set base v classes.now ends.old ends.new }
{
    for i in Places(set).members() {
        let c = class_at(classes, base + 1 + i) as usize;
        ends[c] |= 1 << v;
    }
}

// The lists a path of which may end at an occurrence of each class.
pub fn ending_lists(
    sizes: &[u64],
    accepting: &[u64],
    lists: usize,
    classes: &[u8],
    ends: &mut [u64; 64],
)
    requires { Counted lists sizes.now × (lists < length accepting.now) × (occupied sizes.now 0 lists < length classes.now)
        × ((o : ℕ) → 0 < o → o ≤ occupied sizes.now 0 lists → slice_index classes.now o < 64)
        × ((c : ℕ) → slice_index ends.old c ≡ 0) }
    ensures { EndingLists lists sizes.now accepting.now classes.now ends.new }
{
    let mut base: usize = 0;
    for v in 0..lists {
        let size = sizes[v + 1];
        end_list(inner(accepting[v + 1], size), base, v as u64, classes, ends);
        base += size as usize;
    }
}

// The classes below k at which a path of some list may end.
pub fn count_ending(ends: &[u64; 64], k: usize) -> usize
    requires { k ≤ 64 }
    ensures { result ≤ 64 }
{
    ends[..k].iter().filter(|lists| **lists != 0).count()
}

// The states that are reached from the state q where a path of one of the lists of a set ends.
fn reached_by(passes: &[u64], table: &[u16], q: usize, set: u64) -> u64
    requires { (q < 64) × (length passes.now ≡ 64)
        × ((v : ℕ) → Member v set → (v < 16) × (16 * q + v < length table.now) × (slice_index table.now (16 * q + v) < 64)) }
    ensures { result ≡ reached_by passes.now table.now set q }
{
    let mut all: u64 = 0;
    for v in Places(set).members() {
        all |= passes[table[16 * q + v] as usize];
    }
    all
}

// The same from each state, put down from the place 64 on.
fn class_words(passes: &[u64], table: &[u16], states: usize, set: u64, ended: &mut [u64])
    requires { (states ≤ 64) × (length passes.now ≡ 64) × (128 ≤ length ended.old)
        × ((q v : ℕ) → q < states → Member v set → (v < 16) × (16 * q + v < length table.now) × (slice_index table.now (16 * q + v) < 64)) }
    ensures { WordsBefore (reached_by passes.now table.now set) ended.old ended.new states }
{
    for q in 0..states {
        ended[64 + q] = reached_by(passes, table, q, set);
    }
}

// The sums of all classes below k, one after the other from the place 128 on: where those of the class c begin stands at c, or 0 where no
// path of a list ends at it. False where there is no room.
pub fn class_sums(
    passes: &[u64],
    table: &[u16],
    states: usize,
    lists: usize,
    k: usize,
    ends: &[u64; 64],
    ended: &mut [u64],
) -> bool
    requires { (0 < states) × (states ≤ 64) × (lists ≤ 16) × (k ≤ 63) × (length passes.now ≡ 64) × (128 ≤ length ended.old)
        × (16 * states ≤ length table.now) × NextBelow states lists table.now × ((v c : ℕ) → Member v (slice_index ends.now c) → v < lists) }
    ensures { result ≡ true → (sizes accepting classes : List ℕ) → EndingLists lists sizes accepting classes ends.now
        → Passing 1 states lists accepting table.now passes.now
        → ClassSums states lists k sizes accepting table.now classes ended.new }
{
    let quarters = 2 * ((states + 7) / 8);
    ended[..128].fill(0);
    let mut at: usize = 128;
    for c in 1..k {
        let set = ends[c];
        if set != 0 {
            if ended.len() < at + 16 * quarters {
                return false;
            }
            class_words(passes, table, states, set, ended);
            sum_list(ended, 64, at, quarters);
            ended[c] = at as u64;
            at += 16 * quarters;
        }
    }
    true
}
