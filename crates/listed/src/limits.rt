// The texts of the cases at a limit.
ghost use Rattle.output.specs.Writer.{Puts};
ghost use Rattle.listed.specs.Texts.{sequence_text, followed_text, optional_text, joined_text};

use crate::sequence::{put_repeated, put_sequence};
use output::Writer;

// So many a's in sequence, and no list.
pub fn put_sequence_text(w: &mut Writer<'_>, count: u64)
    ensures { Puts w.old (sequence_text count) w.new }
{
    w.put_part(b"label a\nquery ");
    put_sequence(w, count);
    w.put(b'\n');
}

// `(a|b)*.a` followed by so many `.(a|b)`, and no list.
pub fn put_followed_text(w: &mut Writer<'_>, count: u64)
    ensures { Puts w.old (followed_text count) w.new }
{
    w.put_part(b"label a\nlabel b\nquery (a|b)*.a");
    put_repeated(w, count, b".(a|b)");
    w.put(b'\n');
}

// So many a's, lists `a` and `a?`.
pub fn put_optional_text(w: &mut Writer<'_>, count: u64)
    ensures { Puts w.old (optional_text count) w.new }
{
    put_sequence_text(w, count);
    w.put_part(b"list l a\nlist m a?\n");
}

// So many a's, lists `a` and so many a's.
pub fn put_joined_text(w: &mut Writer<'_>, count: u64, listed: u64)
    ensures { Puts w.old (joined_text count listed) w.new }
{
    put_sequence_text(w, count);
    w.put_part(b"list l a\nlist m ");
    put_sequence(w, listed);
    w.put(b'\n');
}
