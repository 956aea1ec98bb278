// What standard error has of a line that can't be read.
ghost use Rattle.text.specs.Page.{Puts};
ghost use Rattle.reply.specs.Answer.{complaint};
ghost use Rattle.reply.specs.Following.{said_of};

use sheet::{Fault, Step};
use text::Page;

#[tactic(auto, using(text::proofs::Puts::puts_append))]
fn put_complaint(
    page: &mut Page,
    before: &[u8],
    number: u64,
    text: &[u8],
    fault: Fault,
    after: &[u8],
)
    ensures { Puts page.old page.new (complaint before.now number text.now fault after.now) }
{
    wording::put_place(page, before, number, text);
    wording::put_fault(page, fault);
    page.put_all(after);
}

#[tactic(auto, unfolding(crate::specs::Following::said_of, crate::specs::Answer::complaint_of, text::specs::Put::puts_of))]
pub(crate) fn put_said(
    page: &mut Page,
    terminal: bool,
    number: u64,
    text: &[u8],
    said: Result<Step, Fault>,
)
    ensures { Puts page.old page.new (said_of terminal number text.now said) }
{
    if let Err(fault) = said {
        if terminal {
            put_complaint(page, b"line ", number, text, fault, b"; type it again\n");
        } else {
            put_complaint(
                page,
                b"calc: line ",
                number,
                text,
                fault,
                b"; nothing from this line on was done\n",
            );
        }
    }
}
