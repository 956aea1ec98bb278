// Addition by its two routes, on the parts that it takes of two numbers. Every function that is public takes any parts.
#![tactic(auto)]

mod short;
mod sum;

pub use short::{Short, short_sum};
pub use sum::aligned_sum;
