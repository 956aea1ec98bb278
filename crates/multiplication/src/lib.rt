// Multiplication of numbers by value.
#![tactic(auto)]

mod product;

pub use product::{multiplication, short_product};
