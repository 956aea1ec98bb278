// What the literals that take two numbers and look at their forms have in common: an operand read, and the answer stored.
#![tactic(auto)]

mod reading;
mod storing;

pub use reading::operand;
pub use storing::store;
