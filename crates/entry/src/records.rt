// A step, and its record.
ghost use Rattle.std.specs.Prelude.{◌≡◌};
ghost use Rattle.text.specs.Page.{Puts, written};
ghost use Rattle.slots.specs.Numbers.{number_of};
ghost use Rattle.replaying.specs.Made.{record_with};
ghost use Rattle.entry.specs.Entry.{five_of, said_kept};

use calculator::Outcome;
use edition::Edition;
use sheet::{Fault, Step};
use text::Page;

// Zeros where the stack is empty.
#[tactic(auto, unfolding(crate::specs::Entry::five_of))]
fn put_five(page: &mut Page, top: &[u8])
    ensures { Puts page.old page.new (five_of top.now) }
{
    if top.is_empty() {
        page.put_all(&[0; 5]);
    } else {
        page.put_all(top);
    }
}

#[tactic(auto, using(text::proofs::Puts::puts_append), unfolding(text::specs::Put::puts_of))]
fn put_record(page: &mut Page, literal: u8, done: Outcome, top: &[u8])
    ensures { Puts page.old page.new (record_with literal (number_of done.report) done.depth (five_of top.now)) }
{
    let [low, high, ..] = done.depth.to_le_bytes();
    page.put_all(&[literal, done.report.number(), low, high]);
    put_five(page, top);
    page.put_all(&[0; 7]);
}

// Answers the depth after it.
#[tactic(auto, unfolding(crate::specs::Entry::said_kept, crate::specs::Entry::five_of, replaying::specs::Made::done_by, replaying::specs::Made::record_of, replaying::specs::Replay::top_of, slots::specs::Slots::bytes_of))]
pub(crate) fn record_step(
    stack: &mut [u8],
    depth: usize,
    said: Result<Step, Fault>,
    page: &mut Page,
) -> usize
    ensures same_slice { page.new.bytes.ghost_name ≡ page.old.bytes.ghost_name }
    ensures kept { (stack.new, result, written page.new) ≡ said_kept stack.old depth (written page.old) said }
{
    match said {
        Ok(Step::Push(number)) => {
            let five = number.to_bytes();
            let done = calculator::push(stack, depth, &five);
            put_record(page, 0, done, &five);
            done.depth
        }
        Ok(Step::Literal(literal)) => {
            let done = calculator::operate_in(Edition::Shipped, stack, depth, literal);
            put_record(page, literal, done, calculator::view(stack, done.depth));
            done.depth
        }
        Ok(Step::Nothing | Step::Named(_)) | Err(_) => depth,
    }
}
