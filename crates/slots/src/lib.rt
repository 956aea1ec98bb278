// The lent stack: its limits, whether it has the numbers that a literal takes, and a view of its top. The stack and its depth go side by side: C hands them
// over so, with any bytes and any depth, and a struct that says no more of them would be taken apart at each call.
#![tactic(auto)]

mod limits;
mod outcome;
mod reach;
mod report;
mod viewing;

pub use limits::over_limits;
pub use outcome::Outcome;
pub use reach::{lacks, lacks_at, lacks_top, refusal};
pub use report::Report;
pub use viewing::view;
