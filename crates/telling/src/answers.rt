// The one line that `replay` prints of a recording that is replayed on a stack. How much was put is answered, since it is promised of any slice (`printed`).
ghost use Rattle.std.specs.Prelude.{◌≡◌};
ghost use Rattle.replaying.specs.Replay.{replay_of};
ghost use Rattle.telling.specs.Verdict.{answer_of, printed};

use crate::verdicts::put_verdict;
use text::Page;

pub fn print_replay(stack: &mut [u8], recording: &[u8], out: &mut [u8]) -> usize
    ensures { (stack.new, (out.new, result))
        ≡ printed (replay_of stack.old recording.now) out.old answer_of }
{
    let done = replaying::replay(stack, recording);
    let mut page = Page::new(out);
    put_verdict(&mut page, done.verdict);
    page.len()
}
