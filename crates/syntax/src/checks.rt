// The checks of an expression's text, in the order of document 01.
ghost use Rattle.std.specs.Prelude.{◌≡◌};
ghost use Rattle.syntax.specs.Check.{check};
ghost use Rattle.syntax.specs.Resolve.{names_at};
ghost use Rattle.syntax.specs.Verdict.{unless, verdict};

use super::grammar::in_grammar;
use super::labels::occurrences;
use super::limits::nesting;
use super::refusal::Refusal;
use super::table::Names;

pub const MOST_BYTES: usize = 512;

pub const MOST_NESTING: u64 = 16;

const MOST_OCCURRENCES: u64 = 63;

// What one check says: that the text is fine, or its refusal.
fn unless(met: bool, refusal: Refusal) -> Result<(), Refusal>
    ensures { result ≡ unless met refusal }
{
    if met { Ok(()) } else { Err(refusal) }
}

// The other checks are made only of a text that is not too long. Each is made, and the first fault in document 01's order is told.
pub fn check_expression(s: &[u8], names: Names<'_>) -> Result<(), Refusal>
    ensures { result ≡ verdict (check (names_at names.entry.text.now names.entry.spans.now) s.now) }
{
    unless(s.len() <= MOST_BYTES, Refusal::ExpressionTooLong)?;
    let deep = nesting(s);
    let grammar = unless(in_grammar(s, deep), Refusal::NotInGrammar);
    let depth = unless(deep <= MOST_NESTING, Refusal::TooDeep);
    let told = occurrences(s, names);
    let labels = unless(told.is_some(), Refusal::UnknownLabel);
    let number = unless(
        told.unwrap_or(0) <= MOST_OCCURRENCES,
        Refusal::TooManyOccurrences,
    );
    grammar.and(depth).and(labels).and(number)
}
