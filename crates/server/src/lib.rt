// The functions that the hosting server, written in C, calls: numbers and bytes alone cross this boundary (include/cezhappu.h). Each lends
// its buffers on to an operation of document 01 and tells the reply in one number.
#![tactic(auto)]

mod find;
mod judge;
mod keep;
mod links;
mod lists;
mod packed;
mod read;

pub use find::cezhappu_find;
pub use judge::cezhappu_verdict;
pub use keep::cezhappu_keep;
pub use links::cezhappu_answer_from_links;
pub use lists::cezhappu_answer_from_lists;
pub use read::cezhappu_read;
