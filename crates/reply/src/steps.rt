// What a line of the sheet does to the stack.
ghost use Rattle.std.specs.Prelude.{◌≡◌};
ghost use Rattle.slots.specs.Numbers.{number_of};
ghost use Rattle.literals.specs.Operate.{outcome};
ghost use Rattle.reply.specs.Step.{step_of, edition_after};

use calculator::{Edition, Outcome, Report};
use sheet::{Fault, Step};

#[tactic(auto, unfolding(crate::specs::Step::step_of, slots::specs::Slots::bytes_of))]
pub(crate) fn step(
    edition: Edition,
    stack: &mut [u8],
    depth: usize,
    said: Result<Step, Fault>,
) -> Outcome
    ensures { step_of edition stack.old depth said ≡ (outcome (number_of result.report) result.depth, stack.new) }
{
    match said {
        Ok(Step::Push(number)) => calculator::push(stack, depth, &number.to_bytes()),
        Ok(Step::Literal(literal)) => calculator::operate_in(edition, stack, depth, literal),
        Ok(Step::Nothing | Step::Named(_)) | Err(_) => Outcome {
            report: Report::Done,
            depth,
        },
    }
}

// The edition from here on.
#[tactic(auto, unfolding(crate::specs::Step::edition_after))]
pub(crate) fn edition_after(edition: Edition, said: Result<Step, Fault>) -> Edition
    ensures { result ≡ edition_after edition said }
{
    match said {
        Ok(Step::Named(named)) => named,
        _ => edition,
    }
}
