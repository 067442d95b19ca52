// Sets of up to 1,024 places in sixteen lent words, the lowest first: places are added where the words stand.
ghost use Rattle.std.specs.Prelude.{◌≡◌, ◌*◌, ◌%◌, ◌^◌, length};
ghost use Rattle.theory.specs.Places.{union};
ghost use Rattle.places.specs.Words.{number_of};
ghost use Rattle.places.specs.NextPlace.{NextPlace};

// Adds the places of one word, as the word number `index`; nothing where there is no such word.
fn add_word(words: &mut [u64], index: usize, word: u64)
    requires { length words.old ≡ 16 }
    ensures { number_of words.new ≡ union (number_of words.old) ((word * 2 ^ (64 * index)) % 2 ^ 1024) }
{
    if index < 16 {
        words[index] |= word;
    }
}

// Adds the places of `set` moved up by `shift`; those from 1,024 on are left out.
pub fn add_shifted(words: &mut [u64], set: u64, shift: u64)
    requires { length words.old ≡ 16 }
    ensures { number_of words.new ≡ union (number_of words.old) ((set * 2 ^ shift) % 2 ^ 1024) }
{
    let index = (shift / 64) as usize;
    let bits = shift % 64;
    add_word(words, index, set << bits);
    if bits != 0 {
        add_word(words, index + 1, set >> (64 - bits));
    }
}

// The least place of the set from `from` on; 1,024 where there is none.
pub fn next_place(words: &[u64], from: u64) -> u64
    requires { length words.now ≡ 16 }
    ensures { NextPlace (number_of words.now) from result }
{
    if from >= 1024 {
        return 1024;
    }
    let mut index = (from / 64) as usize;
    let mut word = (words[index] >> (from % 64)) << (from % 64);
    // The first word is cut and the others are not: a `for` would need the answer written twice.
    while word == 0 {
        index += 1;
        if index == 16 {
            return 1024;
        }
        word = words[index];
    }
    64 * (index as u64) + (u64::trailing_zeros(word) as u64)
}
