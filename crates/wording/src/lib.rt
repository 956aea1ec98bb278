// What the programs that read sheets and recordings say alike: what a step gave, and which line it is that can't be taken.
#![tactic(auto)]

mod places;
mod steps;

pub use places::{put_fault, put_place};
pub use steps::put_step;
