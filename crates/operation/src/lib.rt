// One operation on the stack: the report that comes first, or the bytes and the depth that the literal leaves.
#![tactic(auto)]

ghost use Rattle.std.specs.Prelude.{◌≡◌};
ghost use Rattle.edition.specs.Edition.{unnamed};
ghost use Rattle.slots.specs.Numbers.{number_of};
ghost use Rattle.literals.specs.Operate.{operate_of, outcome};

use edition::{Edition, Mended, Rom, Shipped, Unnamed};
use literals::table;
use slots::{Outcome, Report};

// The table of literals in the edition E, for a call or for a loop over one stack. It is put into each place that calls it, so that a call and each loop have a
// jump table of their own.
#[inline(always)]
pub fn operate_as<E: Rom, const IN_LOOP: bool>(
    stack: &mut [u8],
    depth: &mut usize,
    literal: u8,
) -> Report
    ensures { operate_of E.EDITION stack.old depth.old literal ≡ (outcome (number_of result) depth.new, stack.new) }
{
    match literal {
        // With an entry for 0, the literal is the index of the jump table as it is.
        0 => literals::unknown(stack, *depth),
        table::EXCHANGE => moving::exchange(stack, depth),
        table::DELETE => moving::delete::<IN_LOOP>(stack, depth),
        table::SUBTRACT => by_edition::subtract::<E>(stack, depth),
        table::MULTIPLY => by_edition::multiply::<E>(stack, depth),
        table::DIVIDE => dividing::divide::<E>(stack, depth),
        table::ADD => by_edition::add::<E>(stack, depth),
        table::NEGATE => by_edition::negate::<E>(stack, depth),
        table::INT => by_edition::int::<E>(stack, depth),
        table::DUPLICATE => moving::duplicate::<IN_LOOP>(stack, depth),
        table::TRUNCATE => by_edition::truncate::<E>(stack, depth),
        table::RE_STACK => by_edition::re_stack::<E>(stack, depth),
        _ => literals::unknown(stack, *depth),
    }
}

// Out of line, one for each edition: a function that had both tables would save registers for both on every call.
#[inline(never)]
fn operate_once<E: Rom>(stack: &mut [u8], depth: &mut usize, literal: u8) -> Report
    ensures { operate_of E.EDITION stack.old depth.old literal ≡ (outcome (number_of result) depth.new, stack.new) }
{
    operate_as::<E, false>(stack, depth, literal)
}

// With the depth moved where it stands: the report is all that is answered.
pub fn operate_in_place(stack: &mut [u8], depth: &mut usize, literal: u8) -> Report
    ensures { operate_of unnamed stack.old depth.old literal ≡ (outcome (number_of result) depth.new, stack.new) }
{
    operate_as::<Unnamed, false>(stack, depth, literal)
}

pub fn operate_in_place_in(
    edition: Edition,
    stack: &mut [u8],
    depth: &mut usize,
    literal: u8,
) -> Report
    ensures { operate_of edition stack.old depth.old literal ≡ (outcome (number_of result) depth.new, stack.new) }
{
    match edition {
        Edition::Shipped => operate_once::<Shipped>(stack, depth, literal),
        Edition::Mended => operate_once::<Mended>(stack, depth, literal),
    }
}

// Not by `operate_in`, which asks what edition it is.
pub fn operate(stack: &mut [u8], depth: usize, literal: u8) -> Outcome
    ensures { operate_of unnamed stack.old depth literal ≡ (outcome (number_of result.report) result.depth, stack.new) }
{
    let mut after = depth;
    let report = operate_in_place(stack, &mut after, literal);
    Outcome {
        report,
        depth: after,
    }
}

pub fn operate_in(edition: Edition, stack: &mut [u8], depth: usize, literal: u8) -> Outcome
    ensures { operate_of edition stack.old depth literal ≡ (outcome (number_of result.report) result.depth, stack.new) }
{
    let mut after = depth;
    let report = operate_in_place_in(edition, stack, &mut after, literal);
    Outcome {
        report,
        depth: after,
    }
}
