// Cover sets by columns, where there are at most 64 states: the column of the offset o is the word of the states q with width × q + o in
// the set.
ghost use Rattle.std.specs.Prelude.{◌≡◌, ◌+◌, ◌*◌, ◌^◌, ◌<◌, ◌≤◌, length};
ghost use Rattle.places.specs.Words.{number_of};
ghost use Rattle.verdict.specs.Turned.{Stacked};
ghost use Rattle.verdict.specs.CoverTold.{Gains};

use crate::rows::row_at;

// The columns of a turned set: that of the offset o stands at n × o.
pub fn columns_at(words: &[u64], w: u64, n: u64, columns: &mut [u64])
    requires { (length words.now ≡ 16) × (0 < w) × (0 < n) × (n ≤ 64) × (n * w ≤ 1024) × (w ≤ length columns.old) }
    ensures { Stacked w n columns.new (number_of words.now) }
{
    let mut at: u64 = 0;
    for o in 0..w {
        columns[o as usize] = row_at(words, at, n);
        at += n;
    }
}

// Adds the places of one word, as the word number `index`.
fn put_word(words: &mut [u64], index: usize, word: u64)
    requires { (length words.old ≡ 16) × (index < 16) }
    ensures { Gains words.old (word * 2 ^ (64 * index)) words.new }
{
    words[index] |= word;
}

// Adds a column, of n states, at the place `at`: a second word is touched only where the column reaches into it.
pub fn put_at(words: &mut [u64], column: u64, at: u64, n: u64)
    requires { (length words.old ≡ 16) × (column < 2 ^ n) × (0 < n) × (n ≤ 64) × (at + n ≤ 1024) }
    ensures { Gains words.old (column * 2 ^ at) words.new }
{
    let index = (at / 64) as usize;
    let bits = at % 64;
    put_word(words, index, column << bits);
    if 64 < bits + n {
        put_word(words, index + 1, column >> (64 - bits));
    }
}
