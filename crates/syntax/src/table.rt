// Tables of names: where each name stands in a text.
ghost use Rattle.std.specs.Prelude.{◌≡◌, take, drop, [], ◌∷◌};
ghost use Rattle.std.specs.List.{position};
ghost use Rattle.syntax.specs.Name.{place_of, same_name};
ghost use Rattle.syntax.specs.Resolve.{names_at};
ghost use Rattle.syntax.specs.TableLaws.{named};

// Where a name, a line or an expression stands in a text.
#[derive(Clone, Copy, Debug, PartialEq, Eq)]
pub struct Span {
    pub start: u64,
    pub size: u64,
}

impl Span {
    pub const EMPTY: Span = Span { start: 0, size: 0 };

    // The bytes that stand there, as far as the text has them.
    pub fn of<'a>(self, text: &'a [u8]) -> &'a [u8]
        ensures { result.now ≡ take self.size (drop self.start text.now) }
    {
        let rest = &text[(self.start as usize).min(text.len())..];
        &rest[..(self.size as usize).min(rest.len())]
    }
}

// Names: where each stands in a text.
#[derive(Clone, Copy)]
pub struct Names<'a> {
    pub text: &'a [u8],
    pub spans: &'a [Span],
}

impl Names<'_> {
    // The place of a name, if the table has it.
    pub fn find(self, name: &[u8]) -> Option<u64>
        ensures { result ≡ place_of name.now (names_at self.entry.text.now self.entry.spans.now) }
    {
        if name.len() == 1 {
            return self.find_letter(name[0]);
        }
        let place = self.place(name)?;
        Some(place as u64)
    }

    // The place of the first name that is the given one. It stands apart, so that the search for a letter is small.
    #[inline(never)]
    fn place(self, name: &[u8]) -> Option<usize>
        ensures { result ≡ position (named self.entry.text.now name.now) self.entry.spans.now }
    {
        let text = self.text;
        self.spans.iter().position(|span| span.of(text) == name)
    }

    // The place of a name of one letter. All names are looked at, from the last to the first: which of them it is decides a number and no
    // branch, since a label among few cannot be foreseen.
    fn find_letter(self, letter: u8) -> Option<u64>
        ensures { result ≡ place_of (letter ∷ []) (names_at self.entry.text.now self.entry.spans.now) }
    {
        let count = self.spans.len();
        let mut found = count;
        for i in (0..count).rev() {
            if same_letter(self.spans[i].of(self.text), letter) {
                found = i;
            }
        }
        if found < count {
            Some(found as u64)
        } else {
            None
        }
    }
}

// Whether a name is the one letter.
fn same_letter(name: &[u8], letter: u8) -> bool
    ensures { result ≡ same_name name.now (letter ∷ []) }
{
    name.len() == 1 && name[0] == letter
}
