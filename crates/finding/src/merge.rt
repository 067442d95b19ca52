// Merging: the classes of states with the same continuations become the states, numbered by their first members, in the lent table and flags.
ghost use Rattle.std.specs.Prelude.{◌≡◌, ℕ, ◌<◌, ◌≤◌, length, slice_index};
ghost use Rattle.theory.specs.Leaders.{Led};
ghost use Rattle.theory.specs.Refinement.{class_at};
ghost use Rattle.theory.specs.Minimized.{class_number};
ghost use Rattle.finding.specs.TableLent.{RowLent, TableLent};
ghost use Rattle.finding.specs.MergeTold.{ClassNumbers, RowPut, ClassesPut, MergeTold};

use crate::clear::clear;
use crate::level::StateTable;

// The classes are numbered in the order of their first states. How many there are is returned.
fn number_classes(classes: &[u8; 256], states: usize, numbers: &mut [u8; 256]) -> usize
    requires { (states ≤ 256) × Led states (class_at classes.now) × (length numbers.old ≡ 256) }
    ensures { ClassNumbers classes.now states numbers.new result }
{
    let mut count = 0;
    for s in 0..states {
        let first = classes[s] as usize;
        if first == s {
            numbers[s] = count as u8;
            count += 1;
        } else {
            numbers[s] = numbers[first];
        }
    }
    count
}

// The row k gets the numbers of the next states of s, which stands no earlier.
fn put_row(table: &mut [u16], lists: usize, numbers: &[u8; 256], s: usize, k: usize)
    requires { RowLent lists table.old s × (k ≤ s) }
    ensures { RowPut table.old lists numbers.now s k table.new }
{
    for v in 0..lists {
        let next = table[16 * s + v] as usize;
        table[16 * k + v] = u16::from(numbers[next]);
    }
}

// Each class gets the row and the flag of its first state.
fn put_classes(
    table: &mut [u16],
    flags: &mut [u8],
    lists: usize,
    states: usize,
    classes: &[u8; 256],
    numbers: &[u8; 256],
)
    requires { TableLent states lists table.old flags.old × Led states (class_at classes.now)
        × ((s : ℕ) → s < states → slice_index numbers.now s ≡ class_number (class_at classes.now) s) }
    ensures { ClassesPut table.old flags.old lists states classes.now
        table.new flags.new }
{
    for s in 0..states {
        if classes[s] as usize == s {
            let k = numbers[s] as usize;
            put_row(table, lists, numbers, s, k);
            flags[k] = flags[s];
        }
    }
}

// The states are merged. How many are left is returned.
pub(crate) fn merge(table: &mut [u16], flags: &mut [u8], lists: usize, states: usize) -> usize
    requires { TableLent states lists table.old flags.old }
    ensures { MergeTold table.old flags.old lists states table.new flags.new result }
{
    let mut classes: [u8; 256] = [0; 256];
    let mut numbers: [u8; 256] = [0; 256];
    let read = StateTable {
        table,
        flags,
        lists,
        states,
    };
    read.refine(&mut classes);
    let count = number_classes(&classes, states, &mut numbers);
    put_classes(table, flags, lists, states, &classes, &numbers);
    clear(&mut table[16 * count..], 16 * (states - count));
    clear(&mut flags[count..], states - count);
    count
}
