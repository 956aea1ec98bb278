// The replay.
ghost use Rattle.std.specs.Prelude.{◌≡◌};
ghost use Rattle.replaying.specs.Refusals.{refusal_number};
ghost use Rattle.replaying.specs.Answer.{replayed_of};
ghost use Rattle.replaying.specs.Replay.{refused, replay_of};

use crate::answer::{Refusal, Replayed, Verdict};
use crate::steps;
use slots::Report;

fn refused(refusal: Refusal) -> Replayed
    ensures { replayed_of result ≡ refused (refusal_number refusal) }
{
    Replayed {
        verdict: Verdict::Refused(refusal),
        report: Report::Done,
        depth: 0,
    }
}

pub fn replay(stack: &mut [u8], recording: &[u8]) -> Replayed
    ensures { replay_of stack.old recording.now ≡ (replayed_of result, stack.new) }
{
    if slots::over_limits(stack, 0) {
        return refused(Refusal::OverLimits);
    }
    if recording::not_a_recording(recording) {
        return refused(Refusal::NotARecording);
    }
    let len = recording.len();
    let mut depth = 0;
    // Counted down: the number that is asked for at the end is then no counter of its own. Counted up it took two instructions a record more.
    let mut left = len;
    loop {
        if left == 0 {
            break Replayed {
                verdict: Verdict::Agree(len / 16),
                report: Report::Done,
                depth,
            };
        }
        let at = len - left;
        let here = &recording[at..at + 16];
        if let Err(report) = steps::step(stack, &mut depth, here) {
            let field = steps::first_difference(here, report, depth);
            break Replayed {
                verdict: Verdict::Differ(at / 16, field),
                report,
                depth,
            };
        }
        left -= 16;
    }
}
