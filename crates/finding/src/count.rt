// How many standings an automaton has.
ghost use Rattle.std.specs.Prelude.{◌≡◌};
ghost use Rattle.finding.specs.Count.{count_standings};

use crate::index::Index;
use crate::standings::Standings;

// The number of standings over the labels, where there are at most `limit`. There is room for 64 standings and 32 labels.
pub fn count_standings(follow: &[u64], enter: &[u64], labels: u64, limit: u64) -> Option<u64>
    ensures { result ≡ count_standings follow.now enter.now labels limit }
{
    let mut standings = Standings {
        found: [0; 64],
        moves: [0; 2048],
        index: Index::new(),
    };
    standings.explore(follow, enter, labels, limit)
}
