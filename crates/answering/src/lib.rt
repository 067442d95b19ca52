// Answers over lent tables: whether a table is one, what a search reaches over it, and its marks; and both answers on job texts.
#![tactic(auto)]

mod end_rows;
mod end_steps;
mod ends;
mod indexed;
mod link_view;
mod links;
mod links_core;
mod links_operation;
mod lists_core;
mod lists_operation;
mod marks;
mod pairs;
mod place_rows;
mod place_search;
mod ranked;
mod ranks;
mod rows;
mod set_search;
mod sizes;
mod state_search;
mod state_sets;
mod step_rows;
mod table;
mod turned_back;
mod turned_search;
mod word_search;

pub use links_operation::answer_from_links;
pub use lists_operation::answer_from_lists;
