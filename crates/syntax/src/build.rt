// Glushkov's automaton of an expression, built from its text in lent tables: three functions read an alternative, a sequence and a factor
// and call each other. The text is checked on the way: none is built where it does not go on as it must, or has a label unknown, a place too
// many or a parenthesis too deep.
ghost use Rattle.std.specs.Prelude.{◌≤◌, ◌≡◌, length};
ghost use Rattle.syntax.specs.Parser.{alternatives, sequences, factors};
ghost use Rattle.syntax.specs.Resolve.{names_at};
ghost use Rattle.syntax.specs.Check.{check};
ghost use Rattle.syntax.specs.Build.{Answers, outcome, building};

use super::checks::{MOST_BYTES, MOST_NESTING};
use super::cursor::Cursor;
use super::leaf::{Source, occurrence, suffixes};
use super::parts::{Part, when};
use super::sets::{link, put};
use super::table::Names;
use places::Places;

// The automaton of an expression but for its tables: the number of its places after the start, and the accepting places.
#[derive(Clone, Copy, Debug, PartialEq, Eq)]
pub struct Automaton {
    pub size: u64,
    pub accepting: Places,
}

// Builds the automaton of the expression s in the lent tables: the follow set of each place, and for each label the places that it may
// enter. A row of follow sets has 64 words, room for all places. Where the text is no expression, the tables are cleared.
pub fn build(s: &[u8], names: Names<'_>, follow: &mut [u64], enter: &mut [u64]) -> Option<Automaton>
    requires { 64 ≤ length follow.old }
    ensures { outcome result follow.new enter.new
        ≡ building (check (names_at names.entry.text.now names.entry.spans.now) s.now)
        follow.old enter.old }
{
    if s.len() <= MOST_BYTES {
        let source = Source { s, names };
        if let Some(whole) = alternative(source, follow, enter, Cursor { at: 0 }, 1, 0) {
            if s.len() <= whole.at {
                put(follow, 0, whole.first);
                let start = when(whole.nullable, Places::START);
                return Some(Automaton {
                    size: whole.next - 1,
                    accepting: start.union(whole.last),
                });
            }
        }
    }
    follow.fill(0);
    enter.fill(0);
    None
}

#[cycle(alternative_factor_sequence)]
fn alternative(
    source: Source<'_>,
    follow: &mut [u64],
    enter: &mut [u64],
    c: Cursor,
    k: u64,
    open: u64,
) -> Option<Part>
    ensures { Answers alternatives 3 (names_at source.entry.names.text.now source.entry.names.spans.now) source.entry.s.now c.at k «open»
        follow.old enter.old result follow.new enter.new }
{
    let mut part = Part::nothing(c.at, k);
    let mut from = c;
    // Ends where no mark follows the part that was just read.
    loop {
        let right = sequence(source, follow, enter, from, part.next, open)?;
        part = part.either(right);
        let end = Cursor { at: right.at };
        match end.mark(source.s, b'|') {
            Some(next) => from = next,
            None => return Some(part),
        }
    }
}

#[cycle(alternative_factor_sequence)]
fn sequence(
    source: Source<'_>,
    follow: &mut [u64],
    enter: &mut [u64],
    c: Cursor,
    k: u64,
    open: u64,
) -> Option<Part>
    ensures { Answers sequences 2 (names_at source.entry.names.text.now source.entry.names.spans.now) source.entry.s.now c.at k «open»
        follow.old enter.old result follow.new enter.new }
{
    let mut part = Part::unit(c.at, k);
    let mut from = c;
    // Ends where no mark follows the part that was just read.
    loop {
        let right = factor(source, follow, enter, from, part.next, open)?;
        link(follow, part.last, right.first);
        part = part.both(right);
        let end = Cursor { at: right.at };
        match end.mark(source.s, b'.') {
            Some(next) => from = next,
            None => return Some(part),
        }
    }
}

#[cycle(alternative_factor_sequence)]
fn factor(
    source: Source<'_>,
    follow: &mut [u64],
    enter: &mut [u64],
    c: Cursor,
    k: u64,
    open: u64,
) -> Option<Part>
    ensures { Answers factors 1 (names_at source.entry.names.text.now source.entry.names.spans.now) source.entry.s.now c.at k «open»
        follow.old enter.old result follow.new enter.new }
{
    let Some(inner) = c.mark(source.s, b'(') else {
        let name = occurrence(source, follow, enter, c, k)?;
        return Some(suffixes(source.s, follow, name));
    };
    if MOST_NESTING <= open {
        return None;
    }
    if let Some(after) = inner.mark(source.s, b')') {
        return Some(suffixes(source.s, follow, Part::unit(after.at, k)));
    }
    let group = alternative(source, follow, enter, inner, k, open + 1)?;
    let end = Cursor { at: group.at };
    let after = end.mark(source.s, b')')?;
    Some(suffixes(source.s, follow, group.ending(after.at)))
}
