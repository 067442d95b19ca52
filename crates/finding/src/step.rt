// Where the places of a standing lead. Only the follow sets of the places that the standing holds are read.
ghost use Rattle.std.specs.Prelude.{◌≡◌, ◌%◌, ◌^◌};
ghost use Rattle.theory.specs.Automaton.{nexts};

use places::Places;
use places::joined::join;

// The places of a standing below n.
pub(crate) fn below(standing: u64, n: usize) -> u64
    ensures { result ≡ standing % 2 ^ n }
{
    if n >= 64 {
        return standing;
    }
    standing & ((1 << n) - 1)
}

// The places that can come next, over any label. Places that the table has no entry for are left out first, so that none is tested later.
pub fn follows(follow: &[u64], standing: Places) -> Places
    ensures { result.0 ≡ nexts standing.0 follow.now }
{
    Places(join(follow, 0, 1, below(standing.0, follow.len())))
}
