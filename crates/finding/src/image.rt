// The images of the query's standings under a list (document 001, section 2), read off the sources of the pairs of a standing and a list
// place.
ghost use Rattle.std.specs.Prelude.{◌≡◌, ℕ, ◌*◌, ◌<◌, ◌≤◌, length, replicate};
ghost use Rattle.theory.specs.Places.{Member};
ghost use Rattle.finding.specs.ImageSearch.{Fitting};
ghost use Rattle.finding.specs.ListTables.{tables_of};
ghost use Rattle.finding.specs.ImagesTurned.{Ended, Added, Inside, Turned};
ghost use Rattle.finding.specs.ImagesTold.{ImagesTold};

use crate::clear::clear;
use crate::sources::{ListTables, Pending};
use crate::step::below;
use places::Places;
use places::joined::join;

// The sources of the standing `to` together with an accepting place.
fn ended(from: &[u64], count: usize, places: usize, accepting: u64, to: usize) -> u64
    requires { (to < count) × (count * places ≤ length from.now) }
    ensures { Ended count places (λ y. Member y accepting) from.now to result }
{
    join(from, to, count, below(accepting, places))
}

// The standing `to` is added to the images of the standings in `all`.
fn add_to(all: u64, to: usize, out: &mut [u64])
    requires { (to < 64) × ((i : ℕ) → Member i all → i < length out.old) }
    ensures { Added (λ i. Member i all) to out.old out.new }
{
    for i in Places(all).members() {
        out[i] |= 1 << to;
    }
}

// Each standing is added to the images of its sources.
fn turn(from: &[u64], count: usize, places: usize, accepting: u64, out: &mut [u64])
    requires { (count ≤ 64) × (count * places ≤ length from.now) × (count ≤ length out.old) × Inside count places from.now }
    ensures { Turned count places accepting from.now count out.old out.new }
{
    clear(out, count);
    for to in 0..count {
        let all = ended(from, count, places, accepting, to);
        add_to(all, to, out);
    }
}

// The images of all standings, in their order, into the first numbers of `out`. Nothing is pending before and after; what `moved` and `from`
// hold does not matter.
pub fn images(
    list: ListTables<'_>,
    accepting: Places,
    pending: &mut Pending,
    moved: &mut [u64; 64],
    from: &mut [u64],
    out: &mut [u64],
)
    requires { Fitting (tables_of list) × (0 < length list.follow.now) × (list.count * length list.follow.now ≤ length from.old)
        × (list.count ≤ length out.old) × (pending.old.at ≡ replicate 64 0) }
    ensures images_told { ImagesTold (tables_of list.entry) accepting.0 out.old out.new }
    ensures cleared { pending.new.at ≡ replicate 64 0 }
{
    pending.find_sources(list, from, moved);
    turn(from, list.count, list.follow.len(), accepting.0, out);
}
