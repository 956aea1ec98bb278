// What `record` does with a line of a sheet: its step is done and recorded, or standard error has why it can't be taken.
#![tactic(auto)]

mod entering;
mod records;

pub use entering::{Recorded, record_line};
