// Document 01's listed cases ("Jobs on each side of a limit"): their job texts, byte for byte.
#![tactic(auto)]

mod limits;
mod proved;
mod sequence;
mod texts;

pub use texts::{Listed, put_case};
