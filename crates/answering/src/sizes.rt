// How many symbols and states an automaton has, how many words each set of its states has, and how many recordings there are.
#[derive(Clone, Copy)]
pub(super) struct Sizes {
    pub(super) symbols: usize,
    pub(super) states: usize,
    pub(super) words: usize,
    pub(super) recordings: usize,
}
