// Job texts: lines, names and expressions, read once into tables.
#![tactic(auto)]

mod answer;
mod line;
mod names;
mod progress;
mod reader;
mod row;
mod scan;
mod tables;

pub use answer::{Job, Refused};
pub use reader::{lists_at_most, load, load_rows, read};
