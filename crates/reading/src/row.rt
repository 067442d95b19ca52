// The rows of an expression in the tables of automata.
ghost use Rattle.std.specs.Prelude.{◌+◌, ◌*◌, ◌≤◌, ◌≡◌, length, take};
ghost use Rattle.syntax.specs.Resolve.{names_at};
ghost use Rattle.reading.specs.Filling.{FillsRow, Fills, Reads};
ghost use Rattle.reading.specs.Lent.{held, Ready, SameMemory};
ghost use Rattle.reading.specs.PartLaws.{part};

use super::progress::Progress;
use super::tables::Tables;
use syntax::build::{Automaton, build};
use syntax::{Names, Refusal, Span, check_expression};

// Builds the automaton of the expression s in one row of each table.
fn fill_row(s: &[u8], labels: Names<'_>, follow: &mut [u64], enter: &mut [u64]) -> Option<Automaton>
    requires { 64 ≤ length follow.old }
    ensures { FillsRow (names_at labels.entry.text.now labels.entry.spans.now) s.now
        follow.old enter.old result follow.new enter.new }
{
    enter.fill(0);
    build(s, labels, follow, enter)
}

// Builds it in the rows x.
fn fill(
    s: &[u8],
    labels: Names<'_>,
    x: usize,
    follow: &mut [u64],
    enter: &mut [u64],
) -> Option<Automaton>
    requires { (64 * x + 64 ≤ length follow.old) × (32 * x + 32 ≤ length enter.old) }
    ensures { Fills (names_at labels.entry.text.now labels.entry.spans.now) s.now x
        follow.old enter.old result follow.new enter.new }
{
    let start = 64 * x;
    let first = 32 * x;
    fill_row(
        s,
        labels,
        &mut follow[start..start + 64],
        &mut enter[first..first + 32],
    )
}

impl Tables<'_> {
    // Reads the expression s over the labels that are read into the rows x.
    pub fn expression(&mut self, p: Progress, text: &[u8], s: Span, x: usize) -> Result<(), Refusal>
        requires { Ready p self.old × (x ≤ p.lists + 1) × (x ≤ 16) }
        ensures same { SameMemory self.old self.new }
        ensures reads { Reads (names_at text.now (take p.labels self.old.names.now)) (part text.now s) x
            (held self.old) result (held self.new) }
    {
        let labels = Names {
            text,
            spans: &self.names[..p.labels as usize],
        };
        let s = s.of(text);
        let Some(made) = fill(s, labels, x, self.follow, self.enter) else {
            return check_expression(s, labels);
        };
        self.sizes[x] = made.size;
        self.accepting[x] = made.accepting.0;
        Ok(())
    }
}
