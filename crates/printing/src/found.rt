// What Find gives: the lines from `query` to `first`.
ghost use Rattle.std.specs.Prelude.{◌≡◌, ◌≤◌, length};
ghost use Rattle.syntax.specs.Resolve.{names_at};
ghost use Rattle.output.specs.Writer.{Puts};
ghost use Rattle.printing.specs.Lines.{rewriting_lines};
ghost use Rattle.printing.specs.Lines.{first_line};
ghost use Rattle.finding.specs.WordTold.{word_of};
ghost use Rattle.printing.specs.Told.{rewriting_told};

use crate::lines::put_count;
use crate::names::put_named_line;
use crate::rows::put_rows;
use finding::answer::Found;
use finding::first::FirstWord;
use output::Writer;
use syntax::{Names, Span};

fn put_first(w: &mut Writer<'_>, names: Names<'_>, first: Option<FirstWord>)
    ensures { Puts w.old (first_line (names_at names.entry.text.now names.entry.spans.now) (word_of first)) w.new }
{
    match first {
        Some(first) => {
            let size = first.length;
            put_named_line(w, b"first", names, Span { start: 0, size }.of(&first.word));
        }
        None => w.put_part(b"empty\n"),
    }
}

// With the names of the lists, of which there are at most 16, and at most 256 states.
pub fn put_found(w: &mut Writer<'_>, names: Names<'_>, found: Found, table: &[u16], flags: &[u8])
    ensures same_reference { w.new.out.ghost_name ≡ w.old.out.ghost_name }
    ensures puts { length names.entry.spans.now ≤ 16 → found.states ≤ 256
        → Puts w.old (rewriting_lines (names_at names.entry.text.now names.entry.spans.now)
        (rewriting_told found table.now flags.now)) w.new }
{
    let lists = (names.spans.len() % 256) as u8;
    put_count(w, b"query ", found.standings);
    put_count(w, b"states ", found.states);
    put_rows(w, table, flags, lists, (found.states % 65536) as u16);
    put_first(w, names, found.first);
}
