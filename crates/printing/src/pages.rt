// What `show` prints of a recording that is replayed on a stack. How much was put is answered, since it is promised of any slice (`printed`).
ghost use Rattle.std.specs.Prelude.{◌≡◌, ◌≤◌};
ghost use Rattle.text.specs.Page.{Puts};
ghost use Rattle.recording.specs.Recording.{records};
ghost use Rattle.replaying.specs.Replay.{replay_of};
ghost use Rattle.slots.specs.Numbers.{number_of};
ghost use Rattle.replaying.specs.Answer.{verdict_of};
ghost use Rattle.replaying.specs.Bounds.{spoken};
ghost use Rattle.telling.specs.Verdict.{printed};
ghost use Rattle.printing.specs.Page.{done_lines, page_of};

use crate::records::put_records;
use replaying::{Replayed, Verdict};
use text::Page;

// The records as far as they were done, and what the last of them gave where it differs.
#[tactic(auto, using(text::proofs::Puts::puts_append), unfolding(replaying::specs::Bounds::spoken, crate::specs::Page::done_lines, text::specs::Put::puts_of))]
fn put_done(page: &mut Page, recording: &[u8], done: Replayed, top: &[u8])
    requires { spoken (verdict_of done.verdict) ≤ records recording.now }
    ensures { Puts page.old page.new (done_lines recording.now (verdict_of done.verdict) (number_of done.report) done.depth top.now) }
{
    match done.verdict {
        Verdict::Agree(n) => put_records(page, n, recording),
        Verdict::Differ(n, _) => {
            put_records(page, n + 1, recording);
            page.put_all(b"  this machine: ");
            wording::put_step(page, done.report.number(), done.depth, top);
        }
        Verdict::Refused(_) => {}
    }
}

#[tactic(auto, using(text::proofs::Puts::puts_append), unfolding(crate::specs::Page::page_of))]
pub fn print_show(stack: &mut [u8], recording: &[u8], out: &mut [u8]) -> usize
    ensures { (stack.new, (out.new, result))
        ≡ printed (replay_of stack.old recording.now) out.old (page_of recording.now) }
{
    let done = replaying::replay(stack, recording);
    let mut page = Page::new(out);
    put_done(
        &mut page,
        recording,
        done,
        calculator::view(stack, done.depth),
    );
    telling::put_verdict(&mut page, done.verdict);
    page.len()
}
