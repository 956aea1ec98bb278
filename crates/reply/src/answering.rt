// One line of a sheet, from its number, the stack, the depth and the edition to what it writes and what it leaves.
ghost use Rattle.std.specs.Prelude.{◌≡◌};
ghost use Rattle.reply.specs.Following.{goes_on, line_left};

use crate::{answers, complaints, steps};
use calculator::Edition;
use sheet::{Fault, Step};
use text::Page;

// The depth and the edition after a line, whether another step may be done, and how much was put for standard output and for standard error:
// `answer_line` promises every byte of any slice, and nothing put for standard error is no complaint.
#[derive(Clone, Copy)]
pub struct Answered {
    pub depth: usize,
    pub edition: Edition,
    pub going: bool,
    pub out: usize,
    pub err: usize,
}

#[tactic(auto, unfolding(crate::specs::Following::goes_on))]
fn goes_on(terminal: bool, said: Result<Step, Fault>) -> bool
    ensures { result ≡ goes_on terminal said }
{
    said.is_ok() || terminal
}

// The edition, the depth and whether steps may go on stay apart, as in `line_left`: a caller has them among other fields, and would take a struct apart.
#[tactic(auto, unfolding(crate::specs::Following::line_left))]
pub fn answer_line(
    edition: Edition,
    stack: &mut [u8],
    depth: usize,
    going: bool,
    line: &[u8],
    number: u64,
    terminal: bool,
    out: &mut [u8],
    err: &mut [u8],
) -> Answered
    ensures { (stack.new, result.depth, result.edition, result.going, (out.new, result.out), (err.new, result.err))
        ≡ line_left terminal going edition stack.old depth number line.now out.old err.old }
{
    if !going {
        return Answered {
            depth,
            edition,
            going,
            out: 0,
            err: 0,
        };
    }
    let told = sheet::told(line, number);
    let said = sheet::line_of(told);
    let done = steps::step(edition, stack, depth, said);
    let top = calculator::view(stack, done.depth);
    let mut answer = Page::new(out);
    answers::put_answer(&mut answer, number, said, done, top);
    let mut complaint = Page::new(err);
    complaints::put_said(&mut complaint, terminal, number, sheet::trimmed(told), said);
    Answered {
        depth: done.depth,
        edition: steps::edition_after(edition, said),
        going: goes_on(terminal, said),
        out: answer.len(),
        err: complaint.len(),
    }
}
