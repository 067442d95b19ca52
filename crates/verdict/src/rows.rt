// At most 64 places of a set that lie together, as a word; and the places of a list that a label leads to.
ghost use Rattle.std.specs.Prelude.{◌≡◌, ◌+◌, ◌*◌, ◌%◌, ◌^◌, ◌<◌, ◌≤◌, length};
ghost use Rattle.places.specs.Words.{number_of};
ghost use Rattle.verdict.specs.CoverSteps.{step_at};
ghost use Rattle.verdict.specs.Rows.{row_of};

// The places that the label a leads to from the place o of the list v.
pub fn step_at(follow: &[u64], enter: &[u64], v: usize, o: usize, a: usize) -> u64
    requires { (v < 16) × (o < 64) × (a < 32) × (64 * v + 128 ≤ length follow.now) × (32 * v + 64 ≤ length enter.now) }
    ensures { result ≡ step_at follow.now enter.now v o a }
{
    let x = v + 1;
    follow[64 * x + o] & enter[32 * x + a]
}

// The w lowest places of a word.
fn lowest(word: u64, w: u64) -> u64
    requires { (0 < w) × (w ≤ 64) }
    ensures { result ≡ word % 2 ^ w }
{
    (word << (64 - w)) >> (64 - w)
}

// The w places of a set from `at` on, as a word.
pub fn row_at(words: &[u64], at: u64, w: u64) -> u64
    requires { (length words.now ≡ 16) × (0 < w) × (w ≤ 64) × (at + w ≤ 1024) }
    ensures { result ≡ row_of (number_of words.now) at w }
{
    let index = (at / 64) as usize;
    let bits = at % 64;
    let low = words[index] >> bits;
    if bits + w > 64 {
        return lowest(low | (words[index + 1] << (64 - bits)), w);
    }
    lowest(low, w)
}
