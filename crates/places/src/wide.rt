// Sets of up to 1,024 places by value: sixteen words, the lowest first.
ghost use Rattle.std.specs.Prelude.{◌≡◌, not, ◌*◌, ◌%◌, ◌^◌, eqb, ltb};
ghost use Rattle.theory.specs.Places.{one, union, intersection, when};
ghost use Rattle.places.specs.Words.{number_of, Without};

use crate::words::add_shifted;

#[derive(Clone, Copy, Debug, PartialEq, Eq)]
pub struct Wide {
    pub words: [u64; 16],
}

impl Wide {
    pub const EMPTY: Wide = Wide { words: [0; 16] };

    // Adds the places of `set` moved up by `shift`; those from 1,024 on are left out.
    pub fn with_shifted(self, set: u64, shift: u64) -> Wide
        ensures { number_of result.words ≡ union (number_of self.words) ((set * 2 ^ shift) % 2 ^ 1024) }
    {
        let mut words = self.words;
        add_shifted(&mut words, set, shift);
        Wide { words }
    }

    // The set of one place, empty where the place is not below 1,024.
    pub fn one(place: u64) -> Wide
        ensures { number_of result.words ≡ when (ltb place 1024) (one place) }
    {
        Wide::EMPTY.with_shifted(1, place)
    }

    // The places that are not in the other set.
    pub fn without(self, other: Wide) -> Wide
        ensures { Without (number_of self.words) (number_of other.words) (number_of result.words) }
    {
        let mut words = self.words;
        let others = other.words;
        for i in 0..16 {
            words[i] ^= words[i] & others[i];
        }
        Wide { words }
    }

    // Whether the two sets have a place in common.
    pub fn meets(self, other: Wide) -> bool
        ensures { result ≡ not (eqb (intersection (number_of self.words) (number_of other.words)) 0) }
    {
        let words = self.words;
        let others = other.words;
        for i in 0..16 {
            if words[i] & others[i] != 0 {
                return true;
            }
        }
        false
    }

    // Whether the two sets are equal.
    pub fn same(self, other: Wide) -> bool
        ensures { result ≡ eqb (number_of self.words) (number_of other.words) }
    {
        self == other
    }
}
