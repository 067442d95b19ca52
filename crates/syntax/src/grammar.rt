// The grammar of expressions (document 01): an alternative holds sequences, a sequence holds factors, a factor may hold an alternative.
// Three reading functions that call each other; the number of unread bytes falls through the cycle.
ghost use Rattle.std.specs.Prelude.{◌≡◌};
ghost use Rattle.syntax.specs.Limits.{nesting};
ghost use Rattle.syntax.specs.Parser.{alternatives, sequences, factors, parse};
ghost use Rattle.syntax.specs.Place.{Follows};
ghost use Rattle.syntax.specs.Some.{is_some};

use super::cursor::Cursor;

#[cycle(alternative_factor_sequence)]
fn alternative(s: &[u8], c: Cursor) -> Option<Cursor>
    ensures { Follows alternatives 3 s.now c.at result }
{
    let end = sequence(s, c)?;
    match end.mark(s, b'|') {
        None => Some(end),
        Some(next) => alternative(s, next),
    }
}

#[cycle(alternative_factor_sequence)]
fn sequence(s: &[u8], c: Cursor) -> Option<Cursor>
    ensures { Follows sequences 2 s.now c.at result }
{
    let end = factor(s, c)?;
    match end.mark(s, b'.') {
        None => Some(end),
        Some(next) => sequence(s, next),
    }
}

#[cycle(alternative_factor_sequence)]
fn factor(s: &[u8], c: Cursor) -> Option<Cursor>
    ensures { Follows factors 1 s.now c.at result }
{
    let Some(inner) = c.mark(s, b'(') else {
        let name = c.name(s)?;
        return Some(name.suffixes(s));
    };
    if let Some(unit) = inner.mark(s, b')') {
        return Some(unit.suffixes(s));
    }
    let end = alternative(s, inner)?;
    let group = end.mark(s, b')')?;
    Some(group.suffixes(s))
}

// In the grammar every parenthesis is closed: a text that nests deeper than half its bytes is not in it. So the three functions call each
// other no deeper than half the bytes allow.
pub fn in_grammar(s: &[u8], deep: u64) -> bool
    requires { deep ≡ nesting 0 s.now }
    ensures { result ≡ is_some (parse s.now) }
{
    let half = (s.len() / 2) as u64;
    if half < deep {
        return false;
    }
    match alternative(s, Cursor { at: 0 }) {
        Some(end) => end.at == s.len(),
        None => false,
    }
}
