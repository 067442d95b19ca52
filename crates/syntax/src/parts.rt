// Parts of an expression as Glushkov's construction sees them.
ghost use Rattle.std.specs.Prelude.{◌≡◌};
ghost use Rattle.theory.specs.Places.{when};
ghost use Rattle.syntax.specs.Part.{unit, nothing, single, either, both, ended};

use places::Places;

// What reading a part of an expression gives: where it ends in the text, the number of the next place, whether it has the empty path,
// and the places that can be read first and last in it.
#[derive(Clone, Copy, Debug, PartialEq, Eq)]
pub struct Part {
    pub at: usize,
    pub next: u64,
    pub nullable: bool,
    pub first: Places,
    pub last: Places,
}

// The places where the test holds, else none.
pub fn when(holds: bool, places: Places) -> Places
    ensures { result.0 ≡ when holds places.0 }
{
    if holds { places } else { Places::EMPTY }
}

impl Part {
    // `()`, which has no place.
    pub fn unit(at: usize, next: u64) -> Part
        ensures { result ≡ unit at next }
    {
        Part {
            at,
            next,
            nullable: true,
            first: Places::EMPTY,
            last: Places::EMPTY,
        }
    }

    // The part before all alternatives: it has no path.
    pub fn nothing(at: usize, next: u64) -> Part
        ensures { result ≡ nothing at next }
    {
        Part {
            at,
            next,
            nullable: false,
            first: Places::EMPTY,
            last: Places::EMPTY,
        }
    }

    // One occurrence of a label.
    pub fn single(at: usize, next: u64, place: Places) -> Part
        ensures { result ≡ single at next place }
    {
        Part {
            at,
            next,
            nullable: false,
            first: place,
            last: place,
        }
    }

    // This part, ending elsewhere in the text.
    pub fn ending(self, at: usize) -> Part
        ensures { result ≡ ended at self.nullable self }
    {
        Part { at, ..self }
    }

    // This part or the one read after it.
    pub fn either(self, right: Part) -> Part
        ensures { result ≡ either self right }
    {
        Part {
            at: right.at,
            next: right.next,
            nullable: self.nullable || right.nullable,
            first: self.first.union(right.first),
            last: self.last.union(right.last),
        }
    }

    // This part and then the one read after it.
    pub fn both(self, right: Part) -> Part
        ensures { result ≡ both self right }
    {
        Part {
            at: right.at,
            next: right.next,
            nullable: self.nullable && right.nullable,
            first: self.first.union(when(self.nullable, right.first)),
            last: when(right.nullable, self.last).union(right.last),
        }
    }
}
