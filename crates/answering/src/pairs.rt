// Pairs of a recording and a state as bits of words: the state s of the recording y is bit s % 64 of the word words × y + s / 64.
ghost use Rattle.std.specs.Prelude.{◌≡◌, ◌+◌, ◌*◌, ◌<◌, ◌≤◌, length};
ghost use Rattle.answering.specs.Pairs.{place, put};
ghost use Rattle.answering.specs.NextState.{NextState};
ghost use Rattle.answering.specs.WordsFrom.{AnyFrom, Zeroed};

// The recording y gets the state s.
pub(super) fn put(pairs: &mut [u64], words: usize, y: usize, s: usize)
    requires { place words y s < length pairs.old }
    ensures { pairs.new ≡ put words pairs.old y s }
{
    let at = words * y + s / 64;
    pairs[at] |= 1 << (s % 64);
}

// Whether some of the words from base on is not zero.
pub(super) fn any_from(pairs: &[u64], base: usize, words: usize) -> bool
    requires { base + words ≤ length pairs.now }
    ensures { AnyFrom pairs.now base words result }
{
    pairs[base..base + words].iter().any(|word| *word != 0)
}

// The words from base on become zero.
pub(super) fn zero_from(pairs: &mut [u64], base: usize, words: usize)
    requires { base + words ≤ length pairs.old }
    ensures { Zeroed base words pairs.old pairs.new }
{
    pairs[base..base + words].fill(0);
}

// The least state of the recording x from `from` on, of those below `most`.
pub(super) fn next_state(
    pairs: &[u64],
    words: usize,
    x: usize,
    from: usize,
    most: usize,
) -> Option<usize>
    requires { (words * x + words ≤ length pairs.now) × (most ≤ 64 * words) × (most ≤ 256) × (from ≤ most) }
    ensures { NextState words pairs.now x from most result }
{
    let mut s = from;
    // No `for`: a word without states is passed over at once.
    while s < most {
        let word = pairs[words * x + s / 64] >> (s % 64);
        if word != 0 {
            let next = s + (u64::trailing_zeros(word) as usize);
            return if next < most { Some(next) } else { None };
        }
        s = 64 * (s / 64 + 1);
    }
    None
}
