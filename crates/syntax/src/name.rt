// Names (document 01): 1 to 16 bytes, a letter a to z, then letters, digits or hyphens.
ghost use Rattle.std.specs.Prelude.{◌≡◌};
ghost use Rattle.std.specs.List.{list_all};
ghost use Rattle.syntax.specs.Byte.{name_byte};
ghost use Rattle.syntax.specs.Name.{is_name};

use super::kind::Kind;

pub const LONGEST: usize = 16;

// Whether a name may have all of the bytes.
fn in_name(s: &[u8]) -> bool
    ensures { result ≡ list_all name_byte s.now }
{
    s.iter().all(|b| Kind::of(*b).in_name())
}

pub fn is_name(s: &[u8]) -> bool
    ensures { result ≡ is_name s.now }
{
    if LONGEST < s.len() {
        return false;
    }
    match s {
        [first, others @ ..] => Kind::of(*first).is_letter() && in_name(others),
        [] => false,
    }
}
