// The places that lead to a place of a list, at 64 × list + place: the follow sets the other way round.
ghost use Rattle.std.specs.Prelude.{◌≡◌, ◌+◌, ◌*◌, ◌<◌, ◌≤◌, true, length};
ghost use Rattle.verdict.specs.Tables.{Counted};
ghost use Rattle.verdict.specs.Columns.{Leading};
ghost use Rattle.verdict.specs.LeadingTurns.{LedFrom, ListLed};

use places::Places;

// Adds the place o to the entries of the places of a set, which stand from `base` on.
pub fn lead_from(set: u64, base: usize, o: u64, before: &mut [u64])
    requires { (base + 64 ≤ length before.old) × (o < 64) }
    ensures { LedFrom base o set before.old before.new }
{
    for p in Places(set).members() {
        before[base + p] |= 1 << o;
    }
}

// Adds the places of the list v, which has `size` occurrences, to the entries of those that they lead to; false where one leads to the
// start.
fn list_leading(follow: &[u64], v: usize, size: u64, before: &mut [u64]) -> bool
    requires { (v < 16) × (size ≤ 63) × (64 * v + 128 ≤ length follow.now) × (64 * v + 64 ≤ length before.old) }
    ensures { result ≡ true → ListLed v size follow.now before.old before.new }
{
    let base = 64 * v;
    for o in 0..=size {
        let set = follow[base + 64 + (o as usize)];
        if set & 1 == 1 {
            return false;
        }
        lead_from(set, base, o, before);
    }
    true
}

// The places that lead to each place of each list; false where one leads to the start.
pub fn leading(follow: &[u64], sizes: &[u64], lists: usize, before: &mut [u64]) -> bool
    requires { Counted lists sizes.now × (64 * lists + 64 ≤ length follow.now) × (64 * lists ≤ length before.old) }
    ensures { result ≡ true → Leading lists follow.now sizes.now before.new }
{
    before[..64 * lists].fill(0);
    for v in 0..lists {
        if !list_leading(follow, v, sizes[v + 1], before) {
            return false;
        }
    }
    true
}
