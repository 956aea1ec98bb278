// A display cell, made from a report and the stack after it. A case that refuses holds no value.
#![tactic(auto)]

mod showing;
mod shown;

pub use showing::cell;
pub use shown::Cell;
