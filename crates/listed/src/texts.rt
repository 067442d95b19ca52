// The text of a listed case.
ghost use Rattle.std.specs.Prelude.{◌≡◌};
ghost use Rattle.output.specs.Put.{writing, puts};
ghost use Rattle.output.specs.Writer.{Puts};
ghost use Rattle.listed.specs.Texts.{text_of};

use crate::limits::{put_followed_text, put_joined_text, put_optional_text, put_sequence_text};
use crate::proved::put_proved;
use output::Writer;

#[derive(Clone, Copy, Debug, PartialEq, Eq)]
pub enum Listed {
    // P1 to P8, by their numbers.
    Proved(u64),
    // So many a's in sequence, and no list.
    Sequence(u64),
    // `(a|b)*.a` followed by so many `.(a|b)`, and no list.
    Followed(u64),
    // So many a's, lists `a` and `a?`.
    Optional(u64),
    // So many a's, lists `a` and so many a's.
    Joined(u64, u64),
}

fn put_text(w: &mut Writer<'_>, case: Listed)
    ensures { Puts w.old (text_of case) w.new }
{
    match case {
        Listed::Proved(number) => put_proved(w, number),
        Listed::Sequence(count) => put_sequence_text(w, count),
        Listed::Followed(count) => put_followed_text(w, count),
        Listed::Optional(count) => put_optional_text(w, count),
        Listed::Joined(count, listed) => put_joined_text(w, count, listed),
    }
}

// Puts the text in front of the output, as far as it has room, and returns the place after it.
pub fn put_case(case: Listed, out: &mut [u8]) -> usize
    ensures { writing out.new result ≡ puts (writing out.old 0) (text_of case) }
{
    let mut w = Writer::new(out);
    put_text(&mut w, case);
    w.at
}
