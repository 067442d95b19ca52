// The next places of few places as rows of words, one word for each label. In these rows one place stands for all that have the same next
// places and are accepted alike, so that fewer are reached and followed.
ghost use Rattle.std.specs.Prelude.{◌≡◌, ℕ, ◌+◌, ◌*◌, ◌<◌, ◌≤◌, true, length};
ghost use Rattle.theory.specs.Places.{Member};
ghost use Rattle.answering.specs.FewPlaces.{FewPlaces};
ghost use Rattle.answering.specs.PlaceRows.{LeadOf, LeadPlaces, RowPlaced, RowsPlaced};

use super::rows::sets_within;
use places::joined::join;

// Whether there are at most six places, and all next places are among these.
pub(super) fn few_places(follow: &[u64]) -> bool
    ensures { result ≡ true → FewPlaces follow.now }
{
    let count = follow.len();
    count <= 6 && sets_within(follow, count)
}

// Whether there are few places, and few rows of them.
pub(super) fn few_rows(follow: &[u64], labels: u64) -> bool
    ensures { result ≡ true → FewPlaces follow.now × (labels * length follow.now ≤ 48) }
{
    if 32 < labels {
        return false;
    }
    if !few_places(follow) {
        return false;
    }
    labels * (follow.len() as u64) <= 48
}

// The first place that has the next places of p and is accepted like p.
fn alike_place(follow: &[u64], accepting: u64, p: usize) -> usize
    requires { (p < length follow.now) × (length follow.now ≤ 64) }
    ensures { LeadOf follow.now accepting p result }
{
    for q in 0..p {
        if follow[q] == follow[p] && (accepting >> q) & 1 == (accepting >> p) & 1 {
            return q;
        }
    }
    p
}

// Each place gets the word of the place that stands for it.
fn lead_places(follow: &[u64], accepting: u64, leads: &mut [u64])
    requires { (length follow.now ≤ length leads.old) × (length follow.now ≤ 64) }
    ensures { LeadPlaces follow.now accepting (length follow.now) leads.new }
{
    for p in 0..follow.len() {
        leads[p] = 1 << alike_place(follow, accepting, p);
    }
}

// The row of the places `after`: for each label the places that stand for those of them that it enters.
fn place_row(after: u64, enter: &[u64], labels: usize, leads: &[u64], rows: &mut [u64], from: usize)
    requires { ((p : ℕ) → Member p after → p < length leads.now) × (labels ≤ length enter.now)
        × (from + labels ≤ length rows.old) }
    ensures { RowPlaced leads.now after enter.now labels from rows.old rows.new }
{
    for a in 0..labels {
        rows[from + a] = join(leads, 0, 1, after & enter[a]);
    }
}

// The rows of all places.
pub(super) fn place_rows(
    follow: &[u64],
    enter: &[u64],
    accepting: u64,
    labels: usize,
    rows: &mut [u64],
)
    requires { FewPlaces follow.now × (labels ≤ length enter.now) × (labels * length follow.now ≤ length rows.old) }
    ensures { RowsPlaced follow.now enter.now accepting labels rows.new }
{
    let mut leads: [u64; 16] = [0; 16];
    lead_places(follow, accepting, &mut leads);
    for p in 0..follow.len() {
        place_row(follow[p], enter, labels, &leads, rows, labels * p);
    }
}
