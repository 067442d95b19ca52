// The printed form of a job's rewriting and verdict.
#![tactic(auto)]

mod found;
mod judged;
mod lines;
mod names;
mod printer;
mod rows;

pub use printer::{print, print_at};
