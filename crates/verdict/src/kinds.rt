// The labels that enter each occurrence of the lists, as a word at its offset.
ghost use Rattle.std.specs.Prelude.{◌+◌, ◌*◌, ◌≤◌, length};
ghost use Rattle.verdict.specs.Tables.{Counted, occupied};
ghost use Rattle.verdict.specs.Classes.{Kinds};
ghost use Rattle.verdict.specs.KindsTurns.{ListKinds};

use crate::column_steps::inner;
use crate::leading::lead_from;

// The labels that enter the occurrences of the expression x, which come after the offset `base`.
fn list_kinds(enter: &[u64], x: usize, size: u64, base: usize, labels: usize, kinds: &mut [u64])
    requires { (x ≤ 16) × (size ≤ 63) × (labels ≤ 32) × (32 * x + 32 ≤ length enter.now) × (base + 65 ≤ length kinds.old) }
    ensures { ListKinds x size base labels enter.now kinds.old kinds.new }
{
    for a in 0..labels {
        lead_from(inner(enter[32 * x + a], size), base + 1, a as u64, kinds);
    }
}

// The labels that enter each occurrence of the lists.
pub fn kinds_of(enter: &[u64], sizes: &[u64], lists: usize, labels: usize, kinds: &mut [u64])
    requires { Counted lists sizes.now × (labels ≤ 32) × (32 * lists + 32 ≤ length enter.now) × (occupied sizes.now 0 lists + 65 ≤ length kinds.old) }
    ensures { Kinds lists labels enter.now sizes.now kinds.new }
{
    kinds.fill(0);
    let mut base: usize = 0;
    for v in 0..lists {
        let size = sizes[v + 1];
        list_kinds(enter, v + 1, size, base, labels, kinds);
        base += size as usize;
    }
}
