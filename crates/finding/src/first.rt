// The first accepted word: that of the first state with flag 1, read off by following the parents back.
ghost use Rattle.std.specs.Prelude.{◌≡◌, ◌==◌, ◌<◌, ◌≤◌, length, position};
ghost use Rattle.finding.specs.FirstWords.{TrailLength, Spelled, FirstTold};

// Its symbols, with zeros behind them.
#[derive(Clone, Copy, Debug, PartialEq, Eq)]
pub struct FirstWord {
    pub length: u64,
    pub word: [u8; 256],
}

// The place of the first flag 1.
fn flag_place(flags: &[u8]) -> Option<usize>
    ensures { result ≡ position (λ flag. flag == 1) flags.now }
{
    flags.iter().position(|flag| *flag == 1)
}

// How many steps lead back from a state to the start. A parent that is not before its state ends the way.
fn trail_length(parents: &[u8; 256], state: usize) -> u64
    requires { state < 256 }
    ensures { TrailLength parents.now state result }
{
    let mut at = state;
    let mut steps: u64 = 0;
    // No `for`: a chain of parents is followed.
    while at > 0 {
        let parent = usize::from(parents[at]);
        if parent >= at {
            return steps;
        }
        at = parent;
        steps += 1;
    }
    steps
}

// The symbols of a state's trail, the last one first, from `size` back to 0.
fn spell(parents: &[u8; 256], symbols: &[u8; 256], state: usize, size: usize, word: &mut [u8])
    requires { (state < 256) × (size ≤ length word.old) }
    ensures { Spelled parents.now symbols.now state size word.old word.new }
{
    let mut at = state;
    for end in (0..size).rev() {
        word[end] = symbols[at];
        at = usize::from(parents[at]);
    }
}

pub(crate) fn first(
    flags: &[u8],
    count: u64,
    parents: &[u8; 256],
    symbols: &[u8; 256],
) -> Option<FirstWord>
    ensures { FirstTold flags.now count parents.now symbols.now result }
{
    let n = count as usize;
    if n > 256 || n > flags.len() {
        return None;
    }
    let state = flag_place(&flags[..n])?;
    let mut word = [0; 256];
    let length = trail_length(parents, state);
    spell(parents, symbols, state, length as usize, &mut word);
    Some(FirstWord { length, word })
}
