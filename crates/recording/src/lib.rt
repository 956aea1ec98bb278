// A recorded count: records of 16 bytes, a step each. The fields of a record, and whether bytes are a recording at all.
#![tactic(auto)]

mod fields;
mod whole;

pub use fields::{depth_in, literal_in, report_in, top_in};
pub use whole::not_a_recording;
