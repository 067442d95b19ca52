// An index of the pairs in a lent workspace: 4,093 buckets, each with a chain of its pairs, the newest first.
ghost use Rattle.std.specs.Prelude.{◌≡◌, ◌+◌, ◌*◌, ◌^◌, ◌<◌, ◌≤◌, length};
ghost use Rattle.places.specs.Words.{number_of};
ghost use Rattle.finding.specs.Buckets.{Noted};
ghost use Rattle.verdict.specs.PairTable.{words_at, Compared, Seen};
ghost use Rattle.verdict.specs.Workspace.{pair};
ghost use Rattle.verdict.specs.PairIndex.{rotated, bucket_of, Indexed, Short};

// For each bucket its newest pair, and for each pair the newest of its bucket before it: one more than its number, 0 for none.
#[derive(Drop)]
pub struct Index {
    pub heads: [u16; 4093],
    pub nexts: [u16; 4096],
}

// A word rotated by 23 places: what leaves it at the upper end comes in at the lower.
fn rotate(word: u64) -> u64
    ensures { result ≡ rotated word }
{
    word.rotate_left(23)
}

// The bucket of a pair whose cover set stands in the first `count` words. The words are mixed from the last to the first, so that words of
// zeros behind them would change nothing.
fn remainder(standing: u64, cover: &[u64; 16], count: usize) -> usize
    requires { (count ≤ 16) × (number_of cover.now < 2 ^ (64 * count)) }
    ensures { result ≡ bucket_of (pair standing cover.now) }
{
    let mut mix: u64 = 0;
    for j in (0..count).rev() {
        mix = rotate(mix) ^ cover[j];
    }
    ((rotate(mix) ^ standing) % 4093) as usize
}

// The bucket of a pair whose cover set stands in the first `used` words. With a number of words that is known when the code is compiled,
// the words are mixed without a loop.
pub fn bucket(standing: u64, cover: &[u64; 16], used: usize) -> usize
    requires { (used ≤ 16) × (number_of cover.now < 2 ^ (64 * used)) }
    ensures { result ≡ bucket_of (pair standing cover.now) }
{
    if used <= 1 {
        return remainder(standing, cover, 1);
    }
    if used <= 4 {
        return remainder(standing, cover, 4);
    }
    if used <= 8 {
        return remainder(standing, cover, 8);
    }
    remainder(standing, cover, 16)
}

// Whether the pair number i is the given one: compared where it stands, the standing first, up to the first word that differs. Both cover
// sets stand in their first `used` words.
fn is_pair(workspace: &[u64], i: usize, standing: u64, cover: &[u64; 16], used: usize) -> bool
    requires { (18 * i + 18 ≤ length workspace.now) × (used ≤ 16) × (number_of cover.now < 2 ^ (64 * used))
        × (number_of (words_at workspace.now (18 * i + 1) 16) < 2 ^ (64 * used)) }
    ensures { Compared workspace.now i (pair standing cover.now) result }
{
    if workspace[18 * i] != standing {
        return false;
    }
    let from = 18 * i + 1;
    workspace[from..from + used] == cover[..used]
}

impl Index {
    // Puts the pair number m in front of the chain of the bucket `at`.
    pub fn note(&mut self, at: usize, m: usize)
        requires { (at < 4093) × (m < 4096) }
        ensures { Noted at m self.old.heads self.old.nexts self.new.heads self.new.nexts }
    {
        self.nexts[m] = self.heads[at];
        self.heads[at] = (m + 1) as u16;
    }

    // Whether the pair, of the bucket `at`, is among the first n: it is looked for along its chain. All cover sets stand in their first
    // `used` words.
    pub fn seen(
        &self,
        workspace: &[u64],
        at: usize,
        n: usize,
        standing: u64,
        cover: &[u64; 16],
        used: usize,
    ) -> bool
        requires { (18 * n ≤ length workspace.now) × (n ≤ 4096) × (at ≡ bucket_of (pair standing cover.now))
            × Indexed workspace.now n self.now.heads self.now.nexts × (used ≤ 16) × (number_of cover.now < 2 ^ (64 * used))
            × Short used workspace.now n }
        ensures { Seen n workspace.now (pair standing cover.now) result }
    {
        let mut next = self.heads[at] as usize;
        // No `for`: a chain is followed, and nothing is counted.
        while 0 < next {
            let i = next - 1;
            if is_pair(workspace, i, standing, cover, used) {
                return true;
            }
            next = self.nexts[i] as usize;
        }
        false
    }
}
