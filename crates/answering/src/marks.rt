// Marks from what a search reached: a recording is marked where some of its words has a bit in common with the accepting words.
ghost use Rattle.std.specs.Prelude.{◌≡◌, ◌+◌, ◌≤◌, length};
ghost use Rattle.answering.specs.MarksLaws.{mark_of};
ghost use Rattle.answering.specs.Marks.{meets, Markable, Sufficing, MarksSet};

// Whether the lent words and marks suffice.
fn sufficing(reached: &[u64], words: u64, recordings: u64, marks: &[u8]) -> bool
    ensures { Sufficing words recordings reached.now marks.now result }
{
    if words == 0 {
        return false;
    }
    if 4 < words {
        return false;
    }
    if (marks.len() as u64) < recordings {
        return false;
    }
    recordings <= (reached.len() as u64) / words
}

// The mark of the recording whose words begin at base.
fn mark_of(reached: &[u64], base: usize, words: usize, accepting: &[u64; 4]) -> u8
    requires { (base + words ≤ length reached.now) × (words ≤ 4) }
    ensures { result ≡ mark_of (meets reached.now accepting.now base words) }
{
    let mut common: u64 = 0;
    for k in 0..words {
        common |= reached[base + k] & accepting[k];
    }
    u8::from(common != 0)
}

// The marks where each recording has one word: whether one is set decides a number, not a branch.
fn mark_words(reached: &[u64], accepting: &[u64; 4], recordings: usize, marks: &mut [u8]) -> u64
    requires { Markable 1 recordings reached.now marks.old }
    ensures { MarksSet 1 reached.now accepting.now recordings
        marks.old marks.new result }
{
    let accepts = accepting[0];
    let mut count = 0;
    for y in 0..recordings {
        let m = u8::from(reached[y] & accepts != 0);
        marks[y] = m;
        count += u64::from(m);
    }
    count
}

// The first marks say which recordings are marked, and the number of ones is returned; where the lent words or marks do not suffice,
// nothing is changed and 0 is returned.
pub fn mark(
    reached: &[u64],
    words: u64,
    accepting: &[u64; 4],
    recordings: u64,
    marks: &mut [u8],
) -> u64
    ensures { MarksSet words reached.now accepting.now recordings
        marks.old marks.new result }
{
    if !sufficing(reached, words, recordings, marks) {
        return 0;
    }
    let per = words as usize;
    let end = recordings as usize;
    if per == 1 {
        return mark_words(reached, accepting, end, marks);
    }
    let mut count = 0;
    for y in 0..end {
        let m = mark_of(reached, per * y, per, accepting);
        marks[y] = m;
        count += u64::from(m);
    }
    count
}
