// Bytes and numbers put into lent buffers.
#![tactic(auto)]

mod number;
mod writer;

pub use writer::Writer;
