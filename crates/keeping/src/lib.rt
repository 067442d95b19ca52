// Kept files: a rewriting written to bytes.
#![tactic(auto)]

mod names;
mod operation;
mod put;
mod states;
mod writer;

pub use operation::keep;
