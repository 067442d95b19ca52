// The search of an automaton of at most 64 states (set_search): each set of states is one word. The next states are given by rows (step_rows).
// The links are known to be in range, so that nothing of a link is tested: whether it brings something new decides numbers, not branches.
ghost use Rattle.std.specs.Prelude.{◌≡◌, ℕ, ◌+◌, ◌-◌, ◌*◌, ◌^◌, ◌<◌, ◌≤◌, length, slice_index};
ghost use Rattle.theory.specs.Places.{Member};
ghost use Rattle.places.specs.Joined.{joined};
ghost use Rattle.answering.specs.Links.{FirstLink, InRange};
ghost use Rattle.answering.specs.LinkBegins.{LinkBegins};
ghost use Rattle.answering.specs.SetSteps.{StatesAdded, RowFollowed, RowsFollowed};
ghost use Rattle.answering.specs.SetSearchRun.{SetBeginning, SetAllFound};
ghost use Rattle.answering.specs.WordSteps.{WordStep, WordImage, NextRoom, NextImages, WordRoom, Raised};
ghost use Rattle.answering.specs.WordsPending.{pending_of, WordsReady, LinksFollowed, Alone};

use super::link_view::{LinkView, leaving_at, next_leaving};
use super::sizes::Sizes;
use super::step_rows::StepRows;
use places::joined::join;

// The states below n.
fn states_below(n: usize) -> u64
    requires { n ≤ 64 }
    ensures { result ≡ 2 ^ n - 1 }
{
    if n == 64 {
        return u64::MAX;
    }
    (1 << n) - 1
}

// The next states of the states over each symbol.
fn spread_word(rows: &[u64], symbols: usize, states: u64, images: &mut [u64])
    requires { ((s a : ℕ) → Member s states → a < symbols → symbols * s + a < length rows.now) × (symbols ≤ length images.old) }
    ensures { (a : ℕ) → a < symbols → slice_index images.new a ≡ joined rows.now a symbols states }
{
    for a in 0..symbols {
        images[a] = join(rows, a, symbols, states);
    }
}

// The next states of the states over a symbol are those of its image that are in the word returned.
fn next_images(rows: &[u64], cut: bool, symbols: usize, states: u64, images: &mut [u64]) -> u64
    requires { NextRoom cut symbols rows.now states images.old }
    ensures { NextImages cut symbols rows.now states images.old images.new result }
{
    if cut {
        return join(rows, 0, 1, states);
    }
    spread_word(rows, symbols, states, images);
    u64::MAX
}

// One more where nothing waited and something is new.
fn raised(height: usize, waited: u64, new: u64) -> usize
    requires { height < 65536 }
    ensures { Raised height waited new result }
{
    if waited == 0 && new != 0 {
        height + 1
    } else {
        height
    }
}

// The recording y gets the states of the image. Pending are those states of a recording that are reached and not in `done`, and y is on the
// stack where it has some. It is stored behind the stack in any case. The height of the stack is returned.
fn add_word(
    image: u64,
    y: usize,
    reached: &mut [u64],
    done: &[u64],
    stack: &mut [u16],
    height: usize,
) -> usize
    requires { WordRoom y reached.old done.now stack.old height }
    ensures { (N : ℕ) → WordsReady N reached.old done.now stack.old height → y < N
        → StatesAdded 1 N (λ t. Member t image) y
        reached.old (pending_of reached.old done.now) height
        reached.new (pending_of reached.new done.now) stack.new result }
{
    let old = reached[y];
    let all = old | image;
    reached[y] = all;
    stack[height] = y as u16;
    raised(height, old ^ done[y], all ^ old)
}

// The link to y over the symbol a is followed. The height of the stack is returned.
fn follow_word(
    images: &[u64],
    next: u64,
    sizes: Sizes,
    a: usize,
    y: usize,
    reached: &mut [u64],
    done: &[u64],
    stack: &mut [u16],
    height: usize,
) -> usize
    requires { WordsReady sizes.recordings reached.old done.now stack.old height × (sizes.symbols ≤ length images.now)
        × (a < sizes.symbols) × (y < sizes.recordings) }
    ensures { RowFollowed 1 sizes.recordings sizes.symbols (WordImage images.now next) a y
        reached.old (pending_of reached.old done.now) height
        reached.new (pending_of reached.new done.now) stack.new result }
{
    add_word(images[a] & next, y, reached, done, stack, height)
}

// All links that leave x are followed, `images` and `next` having the next states over each symbol, and `links` being at the first triple
// that leaves x. The height of the stack is returned.
fn follow_word_links(
    images: &[u64],
    next: u64,
    sizes: Sizes,
    links: LinkView<'_>,
    x: usize,
    reached: &mut [u64],
    done: &[u64],
    stack: &mut [u16],
    height: usize,
) -> usize
    requires { WordsReady sizes.recordings reached.old done.now stack.old height
        × (sizes.symbols ≤ length images.now) × FirstLink links.table.now x links.at
        × InRange sizes.symbols sizes.recordings links.table.now }
    ensures { RowsFollowed 1 sizes.recordings sizes.symbols links.entry.table.now x (WordImage images.now next)
        reached.old (pending_of reached.old done.now) height
        reached.new (pending_of reached.new done.now) stack.new result }
{
    let from = x as u64;
    let mut top = height;
    let mut leaving = leaving_at(links.table, links.at, from);
    while let Some(link) = leaving {
        top = follow_word(
            images, next, sizes, link.label, link.end, reached, done, stack, top,
        );
        leaving = next_leaving(links.table, link.at, from);
    }
    top
}

// Whether the set has one state alone.
fn alone(states: u64) -> bool
    ensures { Alone states result }
{
    if states == 0 {
        return false;
    }
    states & (states - 1) == 0
}

// All links that leave x are followed from the states. The row of one state alone serves as its images at once, where the rows are not cut.
// Where they are, `images` has the words of the symbols, and keeps them. The height of the stack is returned.
fn follow_states(
    steps: StepRows<'_>,
    states: u64,
    links: LinkView<'_>,
    x: usize,
    images: &mut [u64],
    reached: &mut [u64],
    done: &[u64],
    stack: &mut [u16],
    height: usize,
) -> usize
    requires { NextRoom steps.cut steps.sizes.symbols steps.rows.now states images.old
        × WordsReady steps.sizes.recordings reached.old done.now stack.old height × FirstLink links.table.now x links.at
        × InRange steps.sizes.symbols steps.sizes.recordings links.table.now }
    ensures { let S = steps.entry in LinksFollowed S.cut S.sizes.recordings S.sizes.symbols links.entry.table.now x
        S.rows.now states images.old images.new
        reached.old done.now height reached.new stack.new result }
{
    let sizes = steps.sizes;
    if !steps.cut && alone(states) {
        let from = sizes.symbols * (u64::trailing_zeros(states) as usize);
        return follow_word_links(
            &steps.rows[from..],
            u64::MAX,
            sizes,
            links,
            x,
            reached,
            done,
            stack,
            height,
        );
    }
    let next = next_images(steps.rows, steps.cut, sizes.symbols, states, images);
    follow_word_links(images, next, sizes, links, x, reached, done, stack, height)
}

// The numbers from the place `head` on, `count` of them, come to the front.
fn move_front(stack: &mut [u16], head: usize, count: usize)
    requires { head + count ≤ length stack.old }
    ensures { (i : ℕ) → i < count → slice_index stack.new i ≡ slice_index stack.old (head + i) }
{
    stack.copy_within(head..head + count, 0);
}

// All that is reached from the start in state 0: while something is pending, the recording that waits longest, at `head`, is taken with its
// pending states, and its links are followed from these; so a recording gathers more states before its turn than if the latest came first.
// Those that wait come to the front when the head has gone on by as many places as there are recordings. What has been followed of each
// recording is kept in `done`, nothing to begin with. Where the rows are cut, `images` has the words of the symbols.
pub(super) fn follow_all_words(
    steps: StepRows<'_>,
    table: &[u16],
    begins: &[u16],
    start: usize,
    reached: &mut [u64],
    images: &mut [u64],
    done: &mut [u64],
    stack: &mut [u16],
)
    requires { SetBeginning 1 steps.sizes.symbols steps.sizes.states steps.sizes.recordings start reached.old done.old stack.old
        × (steps.sizes.symbols ≤ length images.old)
        × LinkBegins table.now steps.sizes.recordings begins.now × (2 * steps.sizes.recordings < length stack.old)
        × InRange steps.sizes.symbols steps.sizes.recordings table.now }
    ensures { let S = steps.entry in SetAllFound 1 (WordStep S.cut S.rows.now S.sizes.symbols images.old) S.sizes.symbols
        S.sizes.states table.now S.sizes.recordings start reached.old reached.new }
{
    let known = states_below(steps.sizes.states);
    let mut top = add_word(1, start, reached, done, stack, 0);
    let mut head: usize = 0;
    // A work list: recordings are added while one is taken.
    while 0 < top {
        let x = usize::from(stack[head]);
        top -= 1;
        head += 1;
        let all = reached[x];
        let states = (all ^ done[x]) & known;
        done[x] = all;
        let links = LinkView {
            table,
            at: usize::from(begins[x]),
        };
        top = follow_states(
            steps,
            states,
            links,
            x,
            images,
            reached,
            done,
            &mut stack[head..],
            top,
        );
        if head == steps.sizes.recordings {
            move_front(stack, head, top);
            head = 0;
        }
    }
}
