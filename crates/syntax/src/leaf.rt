// What stands around the leaves of an expression: a label's occurrence, and the marks after a factor.
ghost use Rattle.std.specs.Prelude.{ℕ, ◌≡◌};
ghost use Rattle.syntax.specs.Parser.{named};
ghost use Rattle.syntax.specs.Resolve.{names_at};
ghost use Rattle.syntax.specs.Build.{Answers, Suffixed};

use super::cursor::Cursor;
use super::parts::Part;
use super::sets::{add, link, put};
use super::table::Names;
use places::Places;

// An expression's text, and the labels that it may name.
#[derive(Clone, Copy)]
pub struct Source<'a> {
    pub s: &'a [u8],
    pub names: Names<'a>,
}

// The occurrence of a label that stands at the cursor, which is place k, if a known label stands there and fewer than 63 have been read.
pub fn occurrence(
    source: Source<'_>,
    follow: &mut [u64],
    enter: &mut [u64],
    c: Cursor,
    k: u64,
) -> Option<Part>
    ensures { (d : ℕ) → Answers (λ n. named) 0 (names_at source.entry.names.text.now source.entry.names.spans.now) source.entry.s.now c.at k d
        follow.old enter.old result follow.new enter.new }
{
    let end = c.name(source.s)?;
    if 64 <= k {
        return None;
    }
    let label = source.names.find(&source.s[c.at..end.at])?;
    let place = Places::one(k);
    put(follow, k, Places::EMPTY);
    add(enter, label, place);
    Some(Part::single(end.at, k + 1, place))
}

// A part with the marks `*` and `?` that stand after it.
pub fn suffixes(s: &[u8], follow: &mut [u64], part: Part) -> Part
    ensures { Suffixed s.now part follow.old result follow.new }
{
    let mut nullable = part.nullable;
    for at in part.at..s.len() {
        match s[at] {
            b'*' => link(follow, part.last, part.first),
            b'?' => {}
            _ => return Part {
                at,
                nullable,
                ..part
            },
        }
        nullable = true;
    }
    Part {
        at: part.at.max(s.len()),
        nullable,
        ..part
    }
}
