// One line of a job text, read into the tables.
ghost use Rattle.std.specs.Prelude.{◌+◌, ◌≤◌, ◌≡◌, length};
ghost use Rattle.syntax.specs.Byte.{Bytes};
ghost use Rattle.reading.specs.Text.{space};
ghost use Rattle.reading.specs.Read.{cut, cut_at, given_query, given_list, early, late, given};
ghost use Rattle.reading.specs.Lent.{held, Ready, SameMemory, SameNames};
ghost use Rattle.reading.specs.Loading.{Gives};
ghost use Rattle.reading.specs.PartLaws.{part, IsBehind};

use super::names::fresh;
use super::progress::Progress;
use super::scan::find_byte;
use super::tables::Tables;
use syntax::{Names, Refusal, Span};

// What comes after the opening word of a line.
fn behind(text: &[u8], line: Span, word: &[u8]) -> Option<Span>
    requires { line.start + line.size ≤ length text.now }
    ensures { IsBehind text.now line word.now result }
{
    if !line.of(text).starts_with(word) {
        return None;
    }
    let n = word.len() as u64;
    Some(Span {
        start: line.start + n,
        size: line.size - n,
    })
}

impl Tables<'_> {
    // The query's expression.
    fn query(&mut self, p: Progress, text: &[u8], s: Span) -> Result<Progress, Refusal>
        requires { Ready p self.old }
        ensures same { SameMemory self.old self.new }
        ensures names { SameNames self.old self.new }
        ensures gives { Gives text.now (λ P. given_query P (part text.now s)) p (held self.old) result (held self.new) }
    {
        if p.labels < 1 {
            return Err(Refusal::BadLine);
        }
        self.expression(p, text, s, 0)?;
        Ok(Progress { query: true, ..p })
    }

    // A list's name and its expression s.
    fn listed(&mut self, p: Progress, text: &[u8], name: Span, s: Span) -> Result<Progress, Refusal>
        requires { Ready p self.old }
        ensures same { SameMemory self.old self.new }
        ensures gives { (more : Bytes) → cut_at space more ≡ cut (part text.now name) (part text.now s)
            → Gives text.now (λ P. given_list P more) p (held self.old) result (held self.new) }
    {
        let lists = p.lists;
        if 16 <= lists {
            return Err(Refusal::TooManyNames);
        }
        let count = lists as usize;
        let names = &self.names[..];
        let others = Names {
            text,
            spans: &names[32..32 + count],
        };
        if !fresh(others, name.of(text)) {
            return Err(Refusal::BadName);
        }
        self.expression(p, text, s, count + 1)?;
        self.names[32 + count] = name;
        Ok(Progress {
            lists: lists + 1,
            ..p
        })
    }

    // What follows `list ` in its line.
    fn list(&mut self, p: Progress, text: &[u8], rest: Span) -> Result<Progress, Refusal>
        requires { Ready p self.old × (rest.start + rest.size ≤ length text.now) }
        ensures same { SameMemory self.old self.new }
        ensures gives { Gives text.now (λ P. given_list P (part text.now rest)) p (held self.old) result (held self.new) }
    {
        let n = find_byte(rest.of(text), b' ').ok_or(Refusal::BadLine)? as u64;
        let name = Span { size: n, ..rest };
        let s = Span {
            start: rest.start + n + 1,
            size: rest.size - n - 1,
        };
        self.listed(p, text, name, s)
    }

    // A line before the query's.
    fn early(&mut self, p: Progress, text: &[u8], line: Span) -> Result<Progress, Refusal>
        requires { Ready p self.old × (line.start + line.size ≤ length text.now) }
        ensures same { SameMemory self.old self.new }
        ensures gives { Gives text.now (λ P. early P (part text.now line)) p (held self.old) result (held self.new) }
    {
        if let Some(name) = behind(text, line, b"label ") {
            return self.label(p, text, name);
        }
        let s = behind(text, line, b"query ").ok_or(Refusal::BadLine)?;
        self.query(p, text, s)
    }

    // A line after the query's.
    fn late(&mut self, p: Progress, text: &[u8], line: Span) -> Result<Progress, Refusal>
        requires { Ready p self.old × (line.start + line.size ≤ length text.now) }
        ensures same { SameMemory self.old self.new }
        ensures gives { Gives text.now (λ P. late P (part text.now line)) p (held self.old) result (held self.new) }
    {
        let rest = behind(text, line, b"list ").ok_or(Refusal::BadLine)?;
        self.list(p, text, rest)
    }

    // A line, by whether the query's came before it.
    pub fn line(&mut self, p: Progress, text: &[u8], line: Span) -> Result<Progress, Refusal>
        requires { Ready p self.old × (line.start + line.size ≤ length text.now) }
        ensures same { SameMemory self.old self.new }
        ensures gives { Gives text.now (λ P. given P (part text.now line)) p (held self.old) result (held self.new) }
    {
        if p.query {
            self.late(p, text, line)
        } else {
            self.early(p, text, line)
        }
    }
}
