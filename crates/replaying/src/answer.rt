// What a replay answers beside the bytes that it leaves.
ghost use Rattle.std.specs.Prelude.{◌≡◌};
ghost use Rattle.replaying.specs.Fields.{field_number};
ghost use Rattle.replaying.specs.Refusals.{refusal_number};

use slots::Report;

#[derive(Clone, Copy)]
pub enum Field {
    Report = 1,
    Depth = 2,
    Top = 3,
}

impl Field {
    // As the C interface has it.
    #[tactic(auto, unfolding(crate::specs::Fields::field_number))]
    pub fn number(self) -> u8
        ensures { result ≡ field_number self }
    {
        self as u8
    }
}

// Why nothing is replayed.
#[derive(Clone, Copy)]
pub enum Refusal {
    // A stack over its limits.
    OverLimits = 1,
    NotARecording = 8,
}

impl Refusal {
    pub fn number(self) -> u8
        ensures { result ≡ refusal_number self }
    {
        self as u8
    }
}

// Three answers side by side, as the line that is printed and C have them: none is more an error than another.
#[derive(Clone, Copy)]
pub enum Verdict {
    // How many records there are.
    Agree(usize),
    // The number of the first record that differs, from 0, and its first field that does.
    Differ(usize, Field),
    Refused(Refusal),
}

#[derive(Clone, Copy)]
pub struct Replayed {
    pub verdict: Verdict,
    // Of the step that differs, and else done.
    pub report: Report,
    pub depth: usize,
}
