// The calculator of the ZX Spectrum, on a stack that the caller lends: any bytes, any depth, any literals.
#![tactic(auto)]

mod outcome;
mod running;

pub use display::{Cell, cell};
pub use edition::Edition;
pub use moving::{push, push_in_place};
pub use number::leading_zeros;
pub use operation::{operate, operate_in, operate_in_place, operate_in_place_in};
pub use outcome::RunOutcome;
pub use running::{run, run_in};
pub use slots::{Outcome, Report, view};
