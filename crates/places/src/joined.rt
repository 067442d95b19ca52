// Unions of words that stand in lent memory.
ghost use Rattle.std.specs.Prelude.{ℕ, ◌+◌, ◌*◌, ◌<◌, ◌≡◌, length};
ghost use Rattle.theory.specs.Places.{Member};
ghost use Rattle.places.specs.Joined.{joined};

use crate::Places;

// The union of the words of the places of a set: place 0 has the word at `first`, and each place the one that stands `apart` words behind
// that of the place before it. Only the words of the places in the set are read.
pub fn join(words: &[u64], first: usize, apart: usize, set: u64) -> u64
    requires { (p : ℕ) → Member p set → apart * p + first < length words.now }
    ensures { result ≡ joined words.now first apart set }
{
    let mut all: u64 = 0;
    for place in Places(set).members() {
        all |= words[apart * place + first];
    }
    all
}
