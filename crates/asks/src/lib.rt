// What the forms of a program ask of the rows in their sets.
#![tactic(auto)]

pub mod rows; // rows.rt: the results that the rows come to
pub mod rules; // rules.rt: what a form asks of each row in its set

pub use rows::result_names;
pub use rules::{Ask, each_passes};
