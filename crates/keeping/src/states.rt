// The states in a kept file: for each a flag and its next states.
ghost use Rattle.keeping.specs.Kept.{kept_nexts, kept_states};
ghost use Rattle.output.specs.Writer.{Puts};
ghost use Rattle.keeping.specs.Write.{lent};

use super::put::put16;
use finding::rewriting::{flag, next_state};
use output::Writer;

fn put_nexts(w: &mut Writer<'_>, table: &[u16], state: u16, lists: u8)
    ensures { Puts w.old (kept_nexts table.now state lists 0) w.new }
{
    for list in 0..lists {
        put16(w, next_state(table, state, list));
    }
}

pub fn put_states(w: &mut Writer<'_>, table: &[u16], flags: &[u8], lists: u8, states: u16)
    ensures { Puts w.old (kept_states (lent states table.now flags.now) lists states 0) w.new }
{
    for state in 0..states {
        w.put(flag(flags, state));
        put_nexts(w, table, state, lists);
    }
}
