// Sets of places by value (document 01: "a standing of the query is a set of at most 64 places"). A set is the number that `theory` calls
// it by: place i is in it where bit i is 1.
#![tactic(auto)]

pub mod joined;
pub mod members;
pub mod wide;
pub mod words;

ghost use Rattle.std.specs.Prelude.{◌≡◌, ltb, ◌&&◌};
ghost use Rattle.theory.specs.Places.{member, one, union, intersection, when};

use members::Members;

#[derive(Clone, Copy, Debug, PartialEq, Eq)]
pub struct Places(pub u64);

impl Places {
    pub const EMPTY: Places = Places(0);
    // The start alone: the standing before any label.
    pub const START: Places = Places(1);

    // The set of one place, empty where the place is not below 64.
    pub fn one(place: u64) -> Places
        ensures { result.0 ≡ when (ltb place 64) (one place) }
    {
        if place < 64 {
            Places(1 << place)
        } else {
            Places::EMPTY
        }
    }

    pub fn union(self, other: Places) -> Places
        ensures { result.0 ≡ union self.0 other.0 }
    {
        Places(self.0 | other.0)
    }

    pub fn intersection(self, other: Places) -> Places
        ensures { result.0 ≡ intersection self.0 other.0 }
    {
        Places(self.0 & other.0)
    }

    // The places of the set, from the least.
    pub fn members(self) -> Members
        ensures { result.rest ≡ self.0 }
    {
        Members { rest: self.0 }
    }

    // Whether the place is in the set.
    pub fn has(self, place: u64) -> bool
        ensures { result ≡ member place self.0 }
    {
        if place < 64 {
            (self.0 >> place) & 1 == 1
        } else {
            false
        }
    }
}
