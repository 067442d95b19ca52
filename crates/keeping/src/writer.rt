// The writer of kept files (document 01, "Keep").
ghost use Rattle.std.specs.Prelude.{◌-◌, replicate};
ghost use Rattle.keeping.specs.Kept.{kept_length};
ghost use Rattle.output.specs.Writer.{Puts};
ghost use Rattle.keeping.specs.Write.{header, Writes};

use super::names::put_names;
use super::put::put16;
use super::states::put_states;
use output::Writer;
use syntax::Names;

// The length of the output's named part.
pub const LENGTH: usize = 8728;

fn put_header(w: &mut Writer<'_>, lists: u8, states: u16)
    ensures { Puts w.old (header lists states) w.new }
{
    w.put_part(b"LRW");
    put16(w, 1);
    w.put(lists);
    put16(w, states);
}

// Zeros up to the end of the named part.
fn put_rest(w: &mut Writer<'_>)
    ensures { Puts w.old (replicate (kept_length - w.old.at) 0) w.new }
{
    w.put_zeros(LENGTH.saturating_sub(w.at));
}

// Writes a rewriting in terms of the lists of these names, then zeros; returns how many bytes the rewriting takes.
pub fn write(names: Names<'_>, states: u64, table: &[u16], flags: &[u8], out: &mut [u8]) -> u64
    ensures { Writes names.entry.text.now names.entry.spans.now states table.now flags.now
        out.old result out.new }
{
    let lists = names.spans.len();
    if 16 < lists || 256 < states || out.len() < LENGTH {
        return 0;
    }
    let mut w = Writer::new(out);
    put_header(&mut w, lists as u8, states as u16);
    put_names(&mut w, names);
    put_states(&mut w, table, flags, lists as u8, states as u16);
    let end = w.at;
    put_rest(&mut w);
    end as u64
}
