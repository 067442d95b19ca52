// The rows of a rewriting: state, `+` or `-`, and next states.
ghost use Rattle.std.specs.Prelude.{◌≡◌};
ghost use Rattle.output.specs.Writer.{Puts};
ghost use Rattle.printing.specs.Lines.{nexts, row, rows};
ghost use Rattle.printing.specs.Lines.{sign as flag_sign};

use finding::rewriting::{flag, next_state};
use output::Writer;

fn sign(flag: u8) -> u8
    ensures { result ≡ flag_sign flag }
{
    if flag == 1 { b'+' } else { b'-' }
}

// A space and a number for each list.
fn put_nexts(w: &mut Writer<'_>, table: &[u16], state: u16, lists: u8)
    ensures { Puts w.old (nexts table.now state lists 0) w.new }
{
    for list in 0..lists {
        w.put(b' ');
        w.put_number(u64::from(next_state(table, state, list)));
    }
}

fn put_row(w: &mut Writer<'_>, table: &[u16], flags: &[u8], lists: u8, state: u16)
    ensures { Puts w.old (row table.now flags.now lists state) w.new }
{
    w.put_number(u64::from(state));
    w.put(b' ');
    w.put(sign(flag(flags, state)));
    put_nexts(w, table, state, lists);
    w.put(b'\n');
}

pub fn put_rows(w: &mut Writer<'_>, table: &[u16], flags: &[u8], lists: u8, states: u16)
    ensures { Puts w.old (rows table.now flags.now lists states 0) w.new }
{
    for state in 0..states {
        put_row(w, table, flags, lists, state);
    }
}
