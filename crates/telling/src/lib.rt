// How a replay ended, as `replay` prints it and `show` ends.
#![tactic(auto)]

mod answers;
mod verdicts;

pub use answers::print_replay;
pub use verdicts::put_verdict;
