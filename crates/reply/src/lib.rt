// What `calc` does with a line of a sheet, and what a person sees of it.
#![tactic(auto)]

mod answering;
mod answers;
mod complaints;
mod steps;

pub use answering::{Answered, answer_line};
