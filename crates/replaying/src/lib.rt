// The replay of a recorded count: each record's step is done, and what it gave is held to the record.
#![tactic(auto)]

mod answer;
mod replaying;
mod steps;

pub use answer::{Field, Refusal, Replayed, Verdict};
pub use replaying::replay;
pub use steps::top_differs;
