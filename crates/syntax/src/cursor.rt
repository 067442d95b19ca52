// A place in a text, handed on as the reader moves along.
ghost use Rattle.std.specs.Prelude.{◌≡◌, drop};
ghost use Rattle.syntax.specs.Grammar.{Tree};
ghost use Rattle.syntax.specs.Parser.{named, past_mark, past_run, suffixes};
ghost use Rattle.syntax.specs.Place.{cursor_at, moved, parsed_to};

use super::kind::Kind;
use super::name::LONGEST;

#[derive(Clone, Copy)]
pub struct Cursor {
    pub at: usize,
}

impl Cursor {
    // Past the byte `mark`, where the text goes on with it.
    pub fn mark(self, s: &[u8], mark: u8) -> Option<Cursor>
        ensures { result ≡ moved s.now (past_mark mark (drop self.at s.now)) }
    {
        let at = self.at;
        if at < s.len() && s[at] == mark {
            Some(Cursor { at: at + 1 })
        } else {
            None
        }
    }

    // Past the longest run of name bytes; from beyond the text, its end.
    pub fn past_run(self, s: &[u8]) -> Cursor
        ensures { result ≡ cursor_at s.now (past_run (drop self.at s.now)) }
    {
        for i in self.at..s.len() {
            if !Kind::of(s[i]).in_name() {
                return Cursor { at: i };
            }
        }
        Cursor { at: s.len() }
    }

    // Past the name that comes next: the whole run of name bytes must be one.
    pub fn name(self, s: &[u8]) -> Option<Cursor>
        ensures { result ≡ parsed_to s.now (named (drop self.at s.now)) }
    {
        let at = self.at;
        let past = self.past_run(s);
        if at < past.at && past.at - at <= LONGEST && Kind::of(s[at]).is_letter() {
            Some(past)
        } else {
            None
        }
    }

    // Past all the marks `*` and `?`; from beyond the text, its end. What they are put on does not matter.
    pub fn suffixes(self, s: &[u8]) -> Cursor
        ensures { (t : Tree) → Some result ≡ parsed_to s.now (suffixes t (drop self.at s.now)) }
    {
        for i in self.at..s.len() {
            if s[i] != b'*' && s[i] != b'?' {
                return Cursor { at: i };
            }
        }
        Cursor { at: s.len() }
    }
}
