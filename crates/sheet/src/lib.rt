// A sheet of steps for the calculator, one to a line: what a line says.
#![tactic(auto)]

mod decimal;
mod meaning;
mod numbers;
mod reading;

pub use meaning::{Fault, Step};
pub use reading::line_of;
pub use words::{told, trimmed};
