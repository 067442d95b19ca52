// Find: the query's standings, the images of lists, states, and Find itself.
#![tactic(auto)]

pub mod answer;
pub mod clear;
pub mod count;
pub mod first;
mod flags;
mod image;
mod images;
mod index;
pub mod job_rows;
mod level;
mod list_images;
mod merge;
mod number;
pub mod operation;
mod refine;
pub mod rewriting;
pub mod rows;
mod sources;
mod standings;
mod states;
pub mod step;
