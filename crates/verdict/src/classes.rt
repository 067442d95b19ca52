// Classes of occurrences: those that are entered by the same labels, and led to from the same classes, are reached by the same paths. They
// are looked for by partition refinement; that they are such classes is tested afterwards (stable.rt), so nothing of that is promised here.
ghost use Rattle.std.specs.Prelude.{◌≡◌, ℕ, ◌+◌, ◌*◌, ◌<◌, ◌≤◌, length, slice_index, IfSome};
ghost use Rattle.theory.specs.Places.{Member};
ghost use Rattle.verdict.specs.Columns.{PlacesWithin};
ghost use Rattle.verdict.specs.Tables.{Counted, occupied};
ghost use Rattle.verdict.specs.Classes.{Numbered, ClassesOf};

use crate::kinds::kinds_of;
use places::Places;

// The class of an offset.
pub fn class_at(classes: &[u8], o: usize) -> u64
    requires { o < length classes.now }
    ensures { result ≡ slice_index classes.now o }
{
    classes[o] as u64
}

// The classes of a set of places of a list, whose occurrences come after the offset `base`; the start is alone in the class 0.
pub fn classes_of(classes: &[u8], base: usize, set: u64) -> u64
    requires { (p : ℕ) → Member p set → base + p < length classes.now }
    ensures { ClassesOf classes.now base set result }
{
    let start = set & 1;
    let mut all = start;
    for p in Places(set - start).members() {
        all |= 1 << (class_at(classes, base + p) % 64);
    }
    all
}

// The places of a level get their distance from the start beside their labels; the places that can come next are returned.
fn level_next(
    follow: &[u64],
    x: usize,
    level: u64,
    depth: u64,
    base: usize,
    keys: &mut [u64],
) -> u64
    requires { (x ≤ 16) × (64 * x + 64 ≤ length follow.now) × (base + 64 ≤ length keys.old) × (depth < 64) }
{
    let mut next: u64 = 0;
    for p in Places(level).members() {
        keys[base + p] |= depth << 32;
        next |= follow[64 * x + p];
    }
    next
}

// The same of all places of the expression x, level by level.
fn list_depths(follow: &[u64], x: usize, base: usize, keys: &mut [u64])
    requires { (x ≤ 16) × (64 * x + 64 ≤ length follow.now) × (base + 64 ≤ length keys.old) }
{
    let mut level = follow[64 * x];
    let mut others = 18446744073709551615 ^ level;
    for depth in 1..64 {
        if level == 0 {
            return;
        }
        level = level_next(follow, x, level, depth, base, keys) & others;
        others ^= level;
    }
}

// The distances of all occurrences from the start.
fn depths(follow: &[u64], sizes: &[u64], lists: usize, keys: &mut [u64])
    requires { Counted lists sizes.now × (64 * lists + 64 ≤ length follow.now) × (occupied sizes.now 0 lists + 65 ≤ length keys.old) }
{
    let mut base: usize = 0;
    for v in 0..lists {
        list_depths(follow, v + 1, base, keys);
        base += sizes[v + 1] as usize;
    }
}

// The place of a key among the first `count`, of which place 0 has none; `count`, the place that it would get, where it is none of them.
fn find_key(found: &[u64; 64], count: usize, key: u64) -> usize
    requires { (0 < count) × (count ≤ 64) }
    ensures { (0 < result) × (result ≤ count) }
{
    for c in 1..count {
        if found[c] == key {
            return c;
        }
    }
    count
}

// Offsets with the same key get the same number, from 1 on; how many numbers there are with 0, where there would be no more than 63.
fn number(keys: &[u64], w: usize, classes: &mut [u8]) -> Option<usize>
    requires { (0 < w) × (w ≤ length keys.now) × (w ≤ length classes.old) }
    ensures { IfSome result (λ k. Numbered w k classes.new)
        × (slice_index classes.new 0 ≡ slice_index classes.old 0) }
{
    let mut found: [u64; 64] = [0; 64];
    let mut count: usize = 1;
    for o in 1..w {
        let c = find_key(&found, count, keys[o]);
        if c == count {
            if count == 63 {
                return None;
            }
            found[count] = keys[o];
            count += 1;
        }
        classes[o] = c as u8;
    }
    Some(count)
}

// The keys of the occurrences of the list v: the classes that lead to each, beside its own.
fn list_keys(before: &[u64], v: usize, size: usize, base: usize, classes: &[u8], keys: &mut [u64])
    requires { (v < 16) × (size ≤ 63) × (64 * v + 64 ≤ length before.now) × (base + size < length classes.now) × (base + size < length keys.old)
        × ((o p : ℕ) → p ≤ 63 → Member o (slice_index before.now (64 * v + p)) → o ≤ size) }
{
    for p in 1..=size {
        let o = base + p;
        let own = class_at(classes, o) % 64;
        keys[o] = classes_of(classes, base, before[64 * v + p]) ^ (own << 58);
    }
}

// The keys of all occurrences.
fn next_keys(before: &[u64], sizes: &[u64], lists: usize, classes: &[u8], keys: &mut [u64])
    requires { Counted lists sizes.now × (64 * lists ≤ length before.now) × PlacesWithin lists sizes.now before.now
        × (occupied sizes.now 0 lists < length classes.now) × (occupied sizes.now 0 lists < length keys.old) }
{
    let mut base: usize = 0;
    for v in 0..lists {
        let size = sizes[v + 1] as usize;
        list_keys(before, v, size, base, classes, keys);
        base += size;
    }
}

// Each occurrence has a class of its own.
fn apart(w: usize, classes: &mut [u8])
    requires { (w ≤ 63) × (0 < w) × (w ≤ length classes.old) }
    ensures { Numbered w w classes.new × (slice_index classes.new 0 ≡ slice_index classes.old 0) }
{
    for o in 1..w {
        classes[o] = o as u8;
    }
}

// Classes by rounds of refinement: at first by the labels that enter an occurrence and its distance from the start, then by the classes
// that lead to it, until there are no more than before. How many there are.
fn refine(
    follow: &[u64],
    enter: &[u64],
    before: &[u64],
    sizes: &[u64],
    lists: usize,
    labels: usize,
    w: usize,
    keys: &mut [u64],
    classes: &mut [u8],
) -> Option<usize>
    requires { Counted lists sizes.now × (labels ≤ 32) × (64 * lists + 64 ≤ length follow.now) × (32 * lists + 32 ≤ length enter.now)
        × (64 * lists ≤ length before.now) × PlacesWithin lists sizes.now before.now × (w ≡ occupied sizes.now 0 lists + 1)
        × (w + 64 ≤ length keys.old) × (w ≤ length classes.old) }
    ensures { IfSome result (λ k. Numbered w k classes.new)
        × (slice_index classes.new 0 ≡ slice_index classes.old 0) }
{
    kinds_of(enter, sizes, lists, labels, keys);
    depths(follow, sizes, lists, keys);
    let mut count = number(keys, w, classes)?;
    for _round in 0..64 {
        next_keys(before, sizes, lists, classes, keys);
        let more = number(keys, w, classes)?;
        if more == count {
            return Some(count);
        }
        count = more;
    }
    None
}

// Classes of the occurrences, which are numbered from 1 on: how many there are with that of the states alone, where there would be no more
// than 63. To look for them among few offsets takes longer than it saves: then each has a class of its own.
pub fn classify(
    follow: &[u64],
    enter: &[u64],
    before: &[u64],
    sizes: &[u64],
    lists: usize,
    labels: usize,
    w: usize,
    keys: &mut [u64],
    classes: &mut [u8],
) -> Option<usize>
    requires { Counted lists sizes.now × (labels ≤ 32) × (64 * lists + 64 ≤ length follow.now) × (32 * lists + 32 ≤ length enter.now)
        × (64 * lists ≤ length before.now) × PlacesWithin lists sizes.now before.now × (w ≡ occupied sizes.now 0 lists + 1)
        × (w + 64 ≤ length keys.old) × (w ≤ length classes.old) }
    ensures { IfSome result (λ k. Numbered w k classes.new)
        × (slice_index classes.new 0 ≡ slice_index classes.old 0) }
{
    if w <= 8 {
        apart(w, classes);
        return Some(w);
    }
    refine(
        follow, enter, before, sizes, lists, labels, w, keys, classes,
    )
}
