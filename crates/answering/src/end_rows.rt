// What the search by sets of recordings goes by.
ghost use Rattle.answering.specs.Ends.{EndsFit, EndsBelow};
ghost use Rattle.answering.specs.EndSteps.{Turnable};

use super::sizes::Sizes;

// The rows of next states of few states, and the ends of the links of few recordings.
#[derive(Clone, Copy)]
pub(super) struct EndRows<'a> {
    pub(super) sizes: Sizes,
    pub(super) rows: &'a [u64],
    pub(super) ends: &'a [u64],
    ghost turnable: { Turnable rows.now sizes.symbols sizes.states },
    ghost ends_fit: { EndsFit sizes.symbols sizes.recordings ends.now },
    ghost ends_below: { EndsBelow sizes.symbols sizes.recordings ends.now },
}
