// What a run answers beside the bytes that it leaves: its report, how many literals were done, and the depth after them. Not an Outcome with a
// position: README and C have three fields.
use slots::Report;

#[derive(Clone, Copy)]
pub struct RunOutcome {
    pub report: Report,
    pub position: usize,
    pub depth: usize,
}
