// The step of a cover set by classes, where there are at most 64 states: the occurrences of a class share a column, which is joined from the
// columns of the classes that lead to it.
ghost use Rattle.std.specs.Prelude.{◌≡◌, ℕ, ◌+◌, ◌*◌, ◌/◌, ◌^◌, ◌<◌, ◌≤◌, length};
ghost use Rattle.theory.specs.Places.{Member};
ghost use Rattle.places.specs.Words.{number_of};
ghost use Rattle.verdict.specs.Columns.{StatesWithin};
ghost use Rattle.verdict.specs.Classes.{MergedWithin, SumsWithin, ClassStepped};
ghost use Rattle.verdict.specs.ClassStepTurns.{EndedClass};
ghost use Rattle.verdict.specs.TurnedColumns.{column_in};

use crate::columns::put_at;
use crate::sums::ended_of;
use places::Places;
use places::joined::join;

// The states alone that are reached from the states of a class, whose sums stand from `sums` on; none where it has no sums.
fn ended_class(ended: &[u64], sums: usize, states: u64) -> u64
    requires { 0 < sums → (q : ℕ) → Member q states → sums + 32 * (q / 8) + 32 ≤ length ended.now }
    ensures { EndedClass ended.now sums states result }
{
    if sums == 0 {
        return 0;
    }
    ended_of(ended, sums, states)
}

// The columns after a step over the label a, each of n states, are put into the turned set `words`, which is empty before. `merged` has at c
// the classes that lead to the class c, and at 64 + label those that the label enters; `ended` has at c where the class's sums begin.
pub fn step_classes(
    merged: &[u64],
    ended: &[u64],
    a: usize,
    k: u64,
    columns: &[u64],
    n: u64,
    words: &mut [u64],
)
    requires { (a < 64) × (0 < k) × (k ≤ 63) × (0 < n) × (n ≤ 64) × (n * k ≤ 1024) × (128 ≤ length merged.now) × (k ≤ length columns.now)
        × MergedWithin a k merged.now × StatesWithin k n columns.now × SumsWithin n k ended.now
        × (length words.old ≡ 16) × (number_of words.old ≡ 0) }
    ensures { ClassStepped n a k merged.now ended.now columns.now (column_in n words.new)
        × (number_of words.new < 2 ^ (n * k)) }
{
    let mut alone: u64 = 0;
    for c in Places(merged[64 + a]).members() {
        let states = join(columns, 0, 1, merged[c]);
        if states != 0 {
            put_at(words, states, n * (c as u64), n);
            alone |= ended_class(ended, ended[c] as usize, states);
        }
    }
    put_at(words, alone, 0, n);
}
