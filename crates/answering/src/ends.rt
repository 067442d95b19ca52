// The ends of the links of few recordings, as sets of recordings in four words: for each symbol and recording, where its links lead.
ghost use Rattle.answering.specs.Links.{InRange};
ghost use Rattle.answering.specs.Ends.{EndsFit, NoEnds, Ends};

use super::pairs::put;
use super::sizes::Sizes;

// The ends of all links of a table.
pub(super) fn fill_ends(table: &[u16], sizes: Sizes, ends: &mut [u64])
    requires { InRange sizes.symbols sizes.recordings table.now × EndsFit sizes.symbols sizes.recordings ends.old
        × NoEnds ends.old }
    ensures { Ends table.now sizes.symbols sizes.recordings ends.new }
{
    for at in 0..table.len() / 3 {
        let x = usize::from(table[3 * at]);
        let a = usize::from(table[3 * at + 1]);
        let y = usize::from(table[3 * at + 2]);
        put(ends, 4, sizes.recordings * a + x, y);
    }
}
