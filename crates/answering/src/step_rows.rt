// The next states of an automaton of at most 64 states.
ghost use Rattle.std.specs.Prelude.{◌≤◌, length};
ghost use Rattle.answering.specs.WordSteps.{rows_of};

use super::sizes::Sizes;

// Each state has a row of words, one for each symbol; or, where the rows are `cut`, each state has one word for all symbols, and of that each
// symbol takes those states that its own word has.
#[derive(Clone, Copy)]
pub(super) struct StepRows<'a> {
    pub(super) sizes: Sizes,
    pub(super) rows: &'a [u64],
    pub(super) cut: bool,
    ghost fit: { rows_of cut sizes.symbols sizes.states ≤ length rows.now },
}
