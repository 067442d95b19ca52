// Expressions as text: names, the grammar, its limits, and Glushkov's automaton of an expression.
#![tactic(auto)]

pub mod build;
mod checks;
mod cursor;
mod grammar;
mod kind;
mod labels;
mod leaf;
mod limits;
mod name;
mod parts;
mod refusal;
mod sets;
pub mod table;

pub use checks::check_expression;
pub use name::is_name;
pub use refusal::Refusal;
pub use table::{Names, Span};
