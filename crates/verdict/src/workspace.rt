// Pairs in a lent workspace, 18 words a pair: the standing, the cover set, and how the pair was first reached (13 bits for the place of the
// pair before it, the next 6 bits for the label).
ghost use Rattle.std.specs.Prelude.{◌≡◌, ◌+◌, ◌*◌, ◌≤◌, length};
ghost use Rattle.verdict.specs.PairTable.{words_at};

use places::wide::Wide;

// The cover set of the pair number i; empty where there is no such pair.
pub fn load(workspace: &[u64], i: usize) -> Wide
    ensures { 18 * i + 18 ≤ length workspace.now → result.words ≡ words_at workspace.now (18 * i + 1) 16 }
{
    let mut words: [u64; 16] = [0; 16];
    if i < workspace.len() / 18 {
        let from = 18 * i + 1;
        words.copy_from_slice(&workspace[from..from + 16]);
    }
    Wide { words }
}
