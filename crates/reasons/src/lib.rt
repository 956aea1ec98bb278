// Why a line of a sheet can't be recorded, and what standard error has of it then.
#![tactic(auto)]

mod complaints;
mod why;

pub use complaints::{put_complaint, why_not};
pub use why::Why;
