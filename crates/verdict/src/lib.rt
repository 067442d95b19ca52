// The verdict: cover places, pairs, and whether every query path is yielded.
#![tactic(auto)]

mod class_steps;
mod class_sums;
mod classes;
mod column_steps;
mod columns;
mod cover;
mod explore;
mod index;
mod kinds;
mod leading;
mod merged;
mod next_cover;
mod operation;
mod pairs;
mod passing;
mod path;
mod prepared;
mod ranges;
mod rows;
mod stable;
mod sums;
mod tables;
mod verdict;
mod ways;
mod wide_rows;
mod workspace;

pub use operation::judge;
pub use verdict::Verdict;
