// The automaton of a rewriting by the ranks of its states.
ghost use Rattle.answering.specs.StateSets.{StatesLent};

// The next states of all states over the lists, in rows of 16, and of those that are kept the ranks and the states by these; a set of ranks
// takes so many words.
#[derive(Clone, Copy)]
pub(super) struct Ranked<'a> {
    pub(super) next: &'a [u16],
    pub(super) lists: usize,
    pub(super) states: usize,
    pub(super) ranks: &'a [u16],
    pub(super) kept: &'a [u16],
    pub(super) count: usize,
    pub(super) words: usize,
    ghost lent: { StatesLent next.now lists states words ranks.now kept.now count },
}
