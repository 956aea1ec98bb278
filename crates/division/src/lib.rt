// Division of re-stacked numbers by value.
#![tactic(auto)]

mod quotient;

pub use quotient::division;
