// The table of names: where the names of labels and lists stand in the text.
ghost use Rattle.std.specs.Prelude.{◌≡◌};
ghost use Rattle.syntax.specs.Resolve.{names_at};
ghost use Rattle.reading.specs.Read.{fresh, given_label};
ghost use Rattle.reading.specs.Lent.{held, Whole, SameMemory, SameRows};
ghost use Rattle.reading.specs.Loading.{Gives};
ghost use Rattle.reading.specs.PartLaws.{part};

use super::progress::Progress;
use super::tables::Tables;
use syntax::{Names, Refusal, Span, is_name};

// Whether the name is proper and not in the table yet.
pub fn fresh(names: Names<'_>, name: &[u8]) -> bool
    ensures { result ≡ fresh name.now (names_at names.entry.text.now names.entry.spans.now) }
{
    is_name(name) && names.find(name).is_none()
}

impl Tables<'_> {
    // A label line, whose name stands at `name`.
    pub fn label(&mut self, p: Progress, text: &[u8], name: Span) -> Result<Progress, Refusal>
        requires { Whole self.old }
        ensures same { SameMemory self.old self.new }
        ensures rows { SameRows self.old self.new }
        ensures gives { Gives text.now (λ P. given_label P (part text.now name)) p
            (held self.old) result (held self.new) }
    {
        let labels = p.labels;
        if 32 <= labels {
            return Err(Refusal::TooManyNames);
        }
        let count = labels as usize;
        let known = Names {
            text,
            spans: &self.names[..count],
        };
        if !fresh(known, name.of(text)) {
            return Err(Refusal::BadName);
        }
        self.names[count] = name;
        Ok(Progress {
            labels: labels + 1,
            ..p
        })
    }
}
