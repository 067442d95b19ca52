// The search over (standing, list place) from all standings at once (document 001, section 2): for each pair its sources, the standings
// from which, with the list's start, the labels lead to it. The word count × place + standing holds them.
ghost use Rattle.std.specs.Prelude.{◌≡◌, ℕ, ◌+◌, ◌*◌, ◌^◌, ◌<◌, ◌≤◌, List, length, replicate, slice_index};
ghost use Rattle.theory.specs.Places.{Member};
ghost use Rattle.finding.specs.ImageSearch.{Fitting};
ghost use Rattle.finding.specs.ListTables.{tables_of};
ghost use Rattle.finding.specs.Sources.{sources, gain_of, gathered, Followed, Only, Moved, Labelled, Begun, Searched};
ghost use Rattle.finding.specs.SourcesBrought.{Brought, Received};

use crate::clear::clear;
use places::Places;

// The moves of `count` standings over `labels` labels, in rows of 32, and of a list the places that follow each of its places and those
// that each label enters.
#[derive(Clone, Copy)]
pub struct ListTables<'a> {
    pub moves: &'a [u8; 2048],
    pub count: usize,
    pub labels: usize,
    pub follow: &'a [u64],
    pub enter: &'a [u64],
}

// What the search has to do: for each place the standings whose sources have not been passed on from it, and the places that have some.
#[derive(Drop)]
pub struct Pending {
    pub at: [u64; 64],
    pub waiting: u64,
}

// One where something was added.
fn gain(old: u64, all: u64) -> u64
    ensures { result ≡ gain_of old all }
{
    if all == old { 0 } else { 1 }
}

// The sources of (s, p) are passed on to (to, next). The standings whose pair with the place next has gained, `added` before, are returned.
// Whether some are new decides numbers, not branches.
fn pass_on(
    count: usize,
    p: usize,
    s: usize,
    next: usize,
    to: usize,
    from: &mut [u64],
    added: u64,
) -> u64
    requires { (count ≤ 64) × (next < 64) × (s < count) × (to < count) × (count * p + count ≤ length from.old)
        × (count * next + count ≤ length from.old) }
    ensures { (pending : List ℕ) (waiting : ℕ) → length pending ≡ 64 → waiting < 2 ^ 64
        → Followed count (Only p s next to) (gathered from.old pending waiting next added)
        (gathered from.new pending waiting next result) }
{
    let at = count * next + to;
    let old = from[at];
    let all = old | from[count * p + s];
    from[at] = all;
    added | (gain(old, all) << to)
}

// The first `count` words become zero. Sixteen are cleared at once where they suffice: to clear as many as there are takes a call.
fn clear_moved(moved: &mut [u64; 64], count: usize)
    requires { count ≤ 64 }
    ensures { (t : ℕ) → t < count → slice_index moved.new t ≡ 0 }
{
    if 16 < count {
        clear(moved, count);
        return;
    }
    moved[..16].fill(0);
}

// What the label a brings from the place p with the standings taken: `moved` has for each standing that it leads to the sources of all pairs
// that it comes from. The standings that it leads to are returned.
fn gather(
    list: ListTables<'_>,
    a: usize,
    p: usize,
    taken: u64,
    from: &[u64],
    moved: &mut [u64; 64],
) -> u64
    requires { (list.count ≤ 64) × (a < 32) × ((s : ℕ) → Member s taken → s < list.count) × (list.count * p + list.count ≤ length from.now) }
    ensures { Brought list.entry.moves.now list.entry.count a p (λ s. Member s taken) from.now moved.new result }
{
    clear_moved(moved, list.count);
    let mut met: u64 = 0;
    for s in Places(taken).members() {
        let to = list.moves[32 * s + a] as usize;
        if to < list.count {
            moved[to] |= from[list.count * p + s];
            met |= 1 << to;
        }
    }
    met
}

// Each standing becomes a source of itself with the list's start, and no other pair below `places` has a source. The standings are
// returned.
fn begin(count: usize, places: usize, from: &mut [u64]) -> u64
    requires { (count ≤ 64) × (0 < places) × (count * places ≤ length from.old) }
    ensures { Begun count count places from.new result }
{
    clear(from, count * places);
    let mut all: u64 = 0;
    for i in 0..count {
        from[i] = 1 << i;
        all |= 1 << i;
    }
    all
}

impl Pending {
    // Nothing.
    pub fn new() -> Pending
        ensures { result.at ≡ replicate 64 0 }
    {
        Pending {
            at: [0; 64],
            waiting: 0,
        }
    }

    // The standings added come to be pending at the place next, and where there are some, it waits.
    fn add(&mut self, next: usize, added: u64)
        requires { next < 64 }
        ensures { (from : List ℕ) → sources from self.new.at self.new.waiting ≡ gathered from self.old.at self.old.waiting next added }
    {
        self.at[next] |= added;
        self.waiting |= gain(0, added) << next;
    }

    // The label a is followed from the place p with the standings taken, to the place next. Pairs that gain are pending.
    fn follow_standings(
        &mut self,
        list: ListTables<'_>,
        a: usize,
        p: usize,
        taken: u64,
        next: usize,
        from: &mut [u64],
    )
        requires { (list.count ≤ 64) × (a < 32) × (next < 64) × ((s : ℕ) → Member s taken → s < list.count)
            × (list.count * p + list.count ≤ length from.old) × (list.count * next + list.count ≤ length from.old) }
        ensures { Followed list.entry.count (Moved list.entry.moves.now list.entry.count a p (λ s. Member s taken) (λ y. y ≡ next))
            (sources from.old self.old.at self.old.waiting) (sources from.new self.new.at self.new.waiting) }
    {
        let mut added: u64 = 0;
        for s in Places(taken).members() {
            let to = list.moves[32 * s + a] as usize;
            if to < list.count {
                added = pass_on(list.count, p, s, next, to, from, added);
            }
        }
        self.add(next, added);
    }

    // The standings that were met get the sources that `moved` has for them, with the place next. Pairs that gain are pending.
    fn give(&mut self, count: usize, met: u64, moved: &[u64; 64], next: usize, from: &mut [u64])
        requires { (count ≤ 64) × (next < 64) × ((t : ℕ) → Member t met → t < count) × (count * next + count ≤ length from.old) }
        ensures { Received count met moved.now next
            (sources from.old self.old.at self.old.waiting) (sources from.new self.new.at self.new.waiting) }
    {
        let mut added: u64 = 0;
        for to in Places(met).members() {
            let at = count * next + to;
            let old = from[at];
            let all = old | moved[to];
            from[at] = all;
            added |= gain(old, all) << to;
        }
        self.add(next, added);
    }

    // The label a is followed from the place p with the standings taken, to the places that it enters, those of the list: what it brings is
    // the same for all of them.
    fn follow_many(
        &mut self,
        list: ListTables<'_>,
        a: usize,
        p: usize,
        taken: u64,
        entered: u64,
        from: &mut [u64],
        moved: &mut [u64; 64],
    )
        requires { (list.count ≤ 64) × (a < 32) × (p < length list.follow.now) × ((s : ℕ) → Member s taken → s < list.count)
            × (list.count * length list.follow.now ≤ length from.old) }
        ensures { Followed list.entry.count
            (Moved list.entry.moves.now list.entry.count a p (λ s. Member s taken) (λ y. Member y entered × (y < length list.entry.follow.now)))
            (sources from.old self.old.at self.old.waiting) (sources from.new self.new.at self.new.waiting) }
    {
        let met = gather(list, a, p, taken, from, moved);
        for next in Places(entered).members() {
            if next < list.follow.len() {
                self.give(list.count, met, moved, next, from);
            }
        }
    }

    // The same. To one place alone the sources are passed on at once.
    fn follow_places(
        &mut self,
        list: ListTables<'_>,
        a: usize,
        p: usize,
        taken: u64,
        entered: u64,
        from: &mut [u64],
        moved: &mut [u64; 64],
    )
        requires { (list.count ≤ 64) × (a < 32) × (p < length list.follow.now) × ((s : ℕ) → Member s taken → s < list.count)
            × (list.count * length list.follow.now ≤ length from.old) }
        ensures { Followed list.entry.count
            (Moved list.entry.moves.now list.entry.count a p (λ s. Member s taken) (λ y. Member y entered × (y < length list.entry.follow.now)))
            (sources from.old self.old.at self.old.waiting) (sources from.new self.new.at self.new.waiting) }
    {
        if entered == 0 {
            return;
        }
        if entered & (entered - 1) != 0 {
            self.follow_many(list, a, p, taken, entered, from, moved);
            return;
        }
        let next = u64::trailing_zeros(entered) as usize;
        if next < list.follow.len() {
            self.follow_standings(list, a, p, taken, next, from);
        }
    }

    // All labels are followed from the place p with the standings taken.
    fn follow_labels(
        &mut self,
        list: ListTables<'_>,
        p: usize,
        taken: u64,
        from: &mut [u64],
        moved: &mut [u64; 64],
    )
        requires { Fitting (tables_of list) × (p < length list.follow.now)
            × ((s : ℕ) → Member s taken → s < list.count) × (list.count * length list.follow.now ≤ length from.old) }
        ensures { Followed list.entry.count
            (Labelled list.entry.moves.now list.entry.count list.entry.follow.now list.entry.enter.now (length list.entry.follow.now) p
            (λ s. Member s taken) list.entry.labels)
            (sources from.old self.old.at self.old.waiting) (sources from.new self.new.at self.new.waiting) }
    {
        for a in 0..list.labels {
            let entered = list.follow[p] & list.enter[a];
            self.follow_places(list, a, p, taken, entered, from, moved);
        }
    }

    // The sources of all pairs: while a place waits, its labels are followed from the standings pending at it. Nothing is pending before, and
    // nothing at the end; what `moved` holds does not matter.
    pub fn find_sources(&mut self, list: ListTables<'_>, from: &mut [u64], moved: &mut [u64; 64])
        requires { Fitting (tables_of list) × (0 < length list.follow.now)
            × (list.count * length list.follow.now ≤ length from.old) × (self.old.at ≡ replicate 64 0) }
        ensures searched { Searched (tables_of list.entry) (length list.entry.follow.now) from.new }
        ensures cleared { self.new.at ≡ replicate 64 0 }
    {
        self.at[0] = begin(list.count, list.follow.len(), from);
        self.waiting = 1;
        // A work list: places are added while the least one is taken.
        while self.waiting != 0 {
            let p = u64::trailing_zeros(self.waiting) as usize;
            self.waiting &= self.waiting - 1;
            let taken = self.at[p];
            self.at[p] = 0;
            self.follow_labels(list, p, taken, from, moved);
        }
    }
}
