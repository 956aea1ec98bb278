// The literals that look at a number's form, in either edition: each by the shipped one, which stays as fast as it is. In the mended edition an odd operand is
// refused, and -65,536 is written as a full number where the shipped one leaves odd.
#![tactic(auto)]

mod one;
mod two;

pub use one::{int, negate, re_stack, truncate};
pub use two::{add, multiply, subtract};
