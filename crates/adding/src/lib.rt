// Literals 15 and 3: add and subtract. The lower operand is the first, and the result stands in its slot.
#![tactic(auto)]

mod sum;
mod term;

pub use sum::{add, subtract};
