// What an operation or a push answers beside the bytes that it leaves: its report and the depth after it.
use crate::report::Report;

#[derive(Clone, Copy)]
pub struct Outcome {
    pub report: Report,
    pub depth: usize,
}
