// What Find tells.
use crate::first::FirstWord;

// What Find tells of a rewriting: the numbers of standings and of states, and the first accepted word, if there is one.
#[derive(Clone, Copy, Debug, PartialEq, Eq)]
pub struct Found {
    pub standings: u64,
    pub states: u64,
    pub first: Option<FirstWord>,
}
