// What standard output has of a line.
ghost use Rattle.text.specs.Page.{Puts};
ghost use Rattle.slots.specs.Numbers.{number_of};
ghost use Rattle.reply.specs.Answer.{unreadable_answer, answer_of};

use calculator::Outcome;
use sheet::{Fault, Step};
use text::Page;

// That a line can't be read, with its number.
#[tactic(auto, using(text::proofs::Puts::puts_append), unfolding(text::specs::Put::puts_of))]
fn put_unreadable(page: &mut Page, number: u64)
    ensures { Puts page.old page.new (unreadable_answer number) }
{
    page.put_all(b"? line ");
    page.put_decimal(number);
    page.put(b'\n');
}

#[tactic(auto, unfolding(crate::specs::Answer::answer_of, text::specs::Put::puts_of))]
pub(crate) fn put_answer(
    page: &mut Page,
    number: u64,
    said: Result<Step, Fault>,
    done: Outcome,
    top: &[u8],
)
    ensures { Puts page.old page.new (answer_of number said (number_of done.report) done.depth top.now) }
{
    match said {
        Ok(Step::Push(_) | Step::Literal(_)) => {
            wording::put_step(page, done.report.number(), done.depth, top);
        }
        Ok(Step::Nothing | Step::Named(_)) => {}
        Err(_) => put_unreadable(page, number),
    }
}
