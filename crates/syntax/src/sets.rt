// Tables of sets of places, in lent slices: an entry is a set. A store beyond the table's end does nothing.
ghost use Rattle.std.specs.Prelude.{◌≡◌, set, get_or};
ghost use Rattle.theory.specs.Places.{union};
ghost use Rattle.theory.specs.Automaton.{link};

use places::Places;

// Makes an entry the given set.
pub fn put(table: &mut [u64], index: u64, places: Places)
    ensures { table.new ≡ set table.old index places.0 }
{
    let i = index as usize;
    if i < table.len() {
        table[i] = places.0;
    }
}

// Adds the given places to an entry.
pub fn add(table: &mut [u64], index: u64, places: Places)
    ensures { table.new ≡ set table.old index (union (get_or table.old index 0) places.0) }
{
    let i = index as usize;
    if i < table.len() {
        table[i] |= places.0;
    }
}

// Adds the places `more` to the entries of the places `ends`.
pub fn link(table: &mut [u64], ends: Places, more: Places)
    ensures { table.new ≡ link ends.0 more.0 0 table.old }
{
    for place in ends.members() {
        add(table, place as u64, more);
    }
}
