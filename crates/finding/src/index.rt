// An index of the numbers found: 509 buckets, each with a chain of its numbers, the newest first. A number stands as itself, in a byte; 0
// ends each chain, so that the start, the number 0, is in none.
ghost use Rattle.std.specs.Prelude.{◌≡◌, ◌<◌, ◌≤◌, length, take, replicate};
ghost use Rattle.finding.specs.Standings.{place_of};
ghost use Rattle.finding.specs.Buckets.{Noted};
ghost use Rattle.finding.specs.NumberIndex.{bucket_of, Indexed};

// For each bucket its newest number, and for each number from 1 on the newest of its bucket before it.
#[derive(Drop)]
pub struct Index {
    pub heads: [u8; 509],
    pub nexts: [u8; 255],
}

// The bucket of a number.
pub fn bucket(x: u64) -> usize
    ensures { result ≡ bucket_of x }
{
    (x % 509) as usize
}

impl Index {
    // Of no number but the start.
    pub fn new() -> Index
        ensures no_heads { result.heads ≡ replicate 509 0 }
        ensures no_nexts { result.nexts ≡ replicate 255 0 }
    {
        Index {
            heads: [0; 509],
            nexts: [0; 255],
        }
    }

    // Puts the number after m, of the bucket `at`, in front of its chain.
    pub fn note(&mut self, at: usize, m: usize)
        requires { (at < 509) × (m < 255) }
        ensures { Noted at m self.old.heads self.old.nexts self.new.heads self.new.nexts }
    {
        self.nexts[m] = self.heads[at];
        self.heads[at] = (m + 1) as u8;
    }

    // The place of x, of the bucket `at`, among the first n numbers found; n, the number that it would get, where it is not there. It is
    // looked for along its chain and at the start.
    pub fn find_place(&self, found: &[u64], at: usize, n: usize, x: u64) -> usize
        requires { (n ≤ length found.now) × (n ≤ 256) × (at ≡ bucket_of x) × Indexed found.now n self.now.heads self.now.nexts }
        ensures { result ≡ place_of x (take n found.now) }
    {
        let mut next = usize::from(self.heads[at]);
        // No `for`: a chain is followed, and nothing is counted.
        while 0 < next {
            if found[next] == x {
                return next;
            }
            next = usize::from(self.nexts[next - 1]);
        }
        if found[0] == x { 0 } else { n }
    }
}
