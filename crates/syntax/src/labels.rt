// The label occurrences of an expression's text: its longest runs of name bytes.
ghost use Rattle.std.specs.Prelude.{◌≡◌};
ghost use Rattle.syntax.specs.Resolve.{names_at};
ghost use Rattle.syntax.specs.Told.{told};

use super::cursor::Cursor;
use super::kind::Kind;
use super::table::Names;

// How many label occurrences there are, if each is a name of the table. The walk goes on from the end of each.
pub fn occurrences(s: &[u8], names: Names<'_>) -> Option<u64>
    ensures { result ≡ told (names_at names.entry.text.now names.entry.spans.now) s.now }
{
    let mut count: u64 = 0;
    let mut i = 0;
    // No `for`: the walk goes on from the end of each run.
    while i < s.len() {
        if Kind::of(s[i]).in_name() {
            let end = Cursor { at: i }.past_run(s).at;
            names.find(&s[i..end])?;
            count += 1;
            i = end;
        } else {
            i += 1;
        }
    }
    Some(count)
}
