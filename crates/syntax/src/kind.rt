// The kinds of bytes (document 01: "every byte of an expression is of one of ten kinds").
ghost use Rattle.std.specs.Prelude.{◌≡◌, eqb, leb};
ghost use Rattle.syntax.specs.Byte.{kind, letter, hyphen};
ghost use Rattle.syntax.specs.KindTable.{kind_number};

#[derive(Clone, Copy, Debug, PartialEq, Eq)]
pub enum Kind {
    Letter,
    Digit,
    Hyphen,
    Dot,
    Bar,
    Star,
    Question,
    Opening,
    Closing,
    Rest,
}

use Kind::{
    Bar, Closing, Digit as D, Dot, Hyphen as H, Letter as L, Opening, Question, Rest as R, Star,
};

// At each byte its kind.
static KINDS: [Kind; 256] = [
    // below `(`
    R, R, R, R, R, R, R, R, R, R, R, R, R, R, R, R, R, R, R, R, R, R, R, R, R, R, R, R, R, R, R, R,
    R, R, R, R, R, R, R, R,
    // `(` `)` `*` `+` `,` `-` `.` `/`
    Opening, Closing, Star, R, R, H, Dot, R,
    // `0` to `9`
    D, D, D, D, D, D, D, D, D, D,
    // `:` `;` `<` `=` `>`
    R, R, R, R, R,
    // `?`
    Question,
    // `@` to the byte before `a`
    R, R, R, R, R, R, R, R, R, R, R, R, R, R, R, R, R, R, R, R, R, R, R, R, R, R, R, R, R, R, R, R,
    R,
    // `a` to `z`
    L, L, L, L, L, L, L, L, L, L, L, L, L, L, L, L, L, L, L, L, L, L, L, L, L, L,
    // `{`
    R,
    // `|`
    Bar,
    // above `|`
    R, R, R, R, R, R, R, R, R, R, R, R, R, R, R, R, R, R, R, R, R, R, R, R, R, R, R, R, R, R, R, R,
    R, R, R, R, R, R, R, R, R, R, R, R, R, R, R, R, R, R, R, R, R, R, R, R, R, R, R, R, R, R, R, R,
    R, R, R, R, R, R, R, R, R, R, R, R, R, R, R, R, R, R, R, R, R, R, R, R, R, R, R, R, R, R, R, R,
    R, R, R, R, R, R, R, R, R, R, R, R, R, R, R, R, R, R, R, R, R, R, R, R, R, R, R, R, R, R, R, R,
    R, R, R,
];

impl Kind {
    pub fn of(b: u8) -> Kind
        ensures { kind_number result ≡ kind b }
    {
        KINDS[b as usize]
    }

    pub fn is_letter(self) -> bool
        ensures { result ≡ eqb (kind_number self) letter }
    {
        self == Kind::Letter
    }

    // Whether a name may have a byte of the kind.
    pub fn in_name(self) -> bool
        ensures { result ≡ leb (kind_number self) hyphen }
    {
        matches!(self, Kind::Letter | Kind::Digit | Kind::Hyphen)
    }
}
