// Whether classes of occurrences are stable: all of a class are entered by the same labels, and led to from the same classes.
ghost use Rattle.std.specs.Prelude.{◌≡◌, ℕ, ◌+◌, ◌-◌, ◌*◌, ◌^◌, ◌<◌, ◌≤◌, true, length, slice_index, IfSome};
ghost use Rattle.verdict.specs.Columns.{PlacesWithin};
ghost use Rattle.verdict.specs.Tables.{Counted, occupied};
ghost use Rattle.verdict.specs.ColumnLists.{PlacesOf};
ghost use Rattle.verdict.specs.Classes.{Numbered, Classes};
ghost use Rattle.verdict.specs.StableTurns.{Liked, ListLike, ListsLike, NoneEntered, EnteredBy};

use crate::classes::{class_at, classes_of};
use crate::kinds::kinds_of;
use crate::leading::lead_from;

// Whether an occurrence of the class c, led to from the classes of `set` and entered by the labels of `kind`, is like those known of it; the
// first one of a class is put down.
fn is_like(
    c: usize,
    set: u64,
    kind: u64,
    known: u64,
    merged: &mut [u64],
    entering: &mut [u64; 64],
) -> bool
    requires { (c < 64) × (64 ≤ length merged.old) × (64 ≤ length entering.old) }
    ensures { result ≡ true → Liked c set kind known merged.old entering.old merged.new entering.new }
{
    if (known >> (c as u64)) & 1 == 1 {
        if merged[c] != set {
            return false;
        }
        return entering[c] == kind;
    }
    merged[c] = set;
    entering[c] = kind;
    true
}

// The classes known after the occurrences of the list v, which come after the offset `base`; none where one is not like those known of its
// class.
fn list_stable(
    before: &[u64],
    v: usize,
    size: usize,
    base: usize,
    kinds: &[u64],
    classes: &[u8],
    already: u64,
    merged: &mut [u64],
    entering: &mut [u64; 64],
) -> Option<u64>
    requires { (v < 16) × (size ≤ 63) × (64 * v + 64 ≤ length before.now) × (base + size < length kinds.now) × (base + size < length classes.now)
        × PlacesOf v size before.now × ((p : ℕ) → 0 < p → p ≤ size → slice_index classes.now (base + p) < 64) × (64 ≤ length merged.old)
        × (64 ≤ length entering.old) }
    ensures { IfSome result (λ known. ListLike v base size before.now kinds.now classes.now already merged.old
        entering.old known merged.new entering.new) }
{
    let mut known = already;
    for p in 1..size + 1 {
        let o = base + p;
        let c = class_at(classes, o);
        let set = classes_of(classes, base, before[64 * v + p]);
        if !is_like(c as usize, set, kinds[o], known, merged, entering) {
            return None;
        }
        known |= 1 << c;
    }
    Some(known)
}

// Whether the classes, numbered below k, are stable and none is empty: `merged` gets at c the classes that lead to the class c, and `entering`
// the labels that enter it.
fn stable(
    before: &[u64],
    sizes: &[u64],
    lists: usize,
    kinds: &[u64],
    classes: &[u8],
    k: usize,
    merged: &mut [u64],
    entering: &mut [u64; 64],
) -> bool
    requires { Counted lists sizes.now × (64 * lists ≤ length before.now) × PlacesWithin lists sizes.now before.now
        × (occupied sizes.now 0 lists < length kinds.now) × (occupied sizes.now 0 lists < length classes.now)
        × Numbered (occupied sizes.now 0 lists + 1) k classes.now × (64 ≤ length merged.old) × (64 ≤ length entering.old) }
    ensures { result ≡ true → ListsLike lists sizes.now before.now kinds.now classes.now (2 ^ k - 1)
        merged.new entering.new }
{
    let mut known: u64 = 1;
    let mut base: usize = 0;
    for v in 0..lists {
        let size = sizes[v + 1] as usize;
        let now = list_stable(
            before, v, size, base, kinds, classes, known, merged, entering,
        );
        let Some(more) = now else {
            return false;
        };
        known = more;
        base += size;
    }
    known == (1 << (k as u64)) - 1
}

// The classes that each label enters, at 64 + label.
fn enter_classes(entering: &[u64; 64], k: usize, merged: &mut [u64])
    requires { (0 < k) × (k ≤ 63) × (128 ≤ length merged.old) }
    ensures { EnteredBy k entering.now merged.old merged.new }
{
    merged[64..128].fill(0);
    for c in 1..k {
        lead_from(entering[c], 64, c as u64, merged);
    }
}

// Whether the classes are stable, with what a step needs of them: which lead to each, and which each label enters.
pub fn merge(
    enter: &[u64],
    before: &[u64],
    sizes: &[u64],
    lists: usize,
    labels: usize,
    k: usize,
    classes: &[u8],
    keys: &mut [u64],
    merged: &mut [u64],
) -> bool
    requires { Counted lists sizes.now × (labels ≤ 32) × (32 * lists + 32 ≤ length enter.now) × (64 * lists ≤ length before.now)
        × PlacesWithin lists sizes.now before.now × (occupied sizes.now 0 lists + 65 ≤ length keys.old)
        × Numbered (occupied sizes.now 0 lists + 1) k classes.now × (occupied sizes.now 0 lists < length classes.now)
        × (slice_index classes.now 0 ≡ 0) × (128 ≤ length merged.old) }
    ensures { result ≡ true → Classes lists labels k enter.now sizes.now before.now classes.now
        merged.new }
{
    let mut entering: [u64; 64] = [0; 64];
    kinds_of(enter, sizes, lists, labels, keys);
    if !stable(
        before,
        sizes,
        lists,
        keys,
        classes,
        k,
        merged,
        &mut entering,
    ) {
        return false;
    }
    enter_classes(&entering, k, merged);
    true
}
