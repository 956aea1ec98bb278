// Literals 15 and 3. "Subtraction negates the second, then adds."
ghost use Rattle.std.specs.Prelude.{◌≡◌, ◌^◌, false, ◌⊎◌};
ghost use Rattle.slots.specs.Reach.{lacking, number_at};
ghost use Rattle.edition.specs.declared.Edition.TheVariants.{Shipped};
ghost use Rattle.literals.specs.Operate.{outcome, operate_of};
ghost use Rattle.addition.specs.declared.short.Short.TheVariants.{Beyond};
ghost use Rattle.addition.specs.SignBytes.{Says};
ghost use Rattle.adding.specs.Sum.{flips, literal_of};
ghost use Rattle.slots.specs.Numbers.{number_of};

use crate::term::term;
use addition::Short;
use literals::table;
use number::Number;
use operands::store;
use slots::Report;

// How many numbers a sum takes and leaves. A difference takes and leaves as many.
const TAKEN: usize = table::ADD_TAKES;

const LEFT: usize = table::ADD_LEAVES;

const _: () = prove!(table::SUBTRACT_TAKES == TAKEN);

const _: () = prove!(table::SUBTRACT_LEAVES == LEFT);

pub fn add(stack: &mut [u8], depth: &mut usize) -> Report
    ensures { operate_of Shipped stack.old depth.old 15 ≡ (outcome (number_of result) depth.new, stack.new) }
{
    sum(stack, depth, 0)
}

pub fn subtract(stack: &mut [u8], depth: &mut usize) -> Report
    ensures { operate_of Shipped stack.old depth.old 3 ≡ (outcome (number_of result) depth.new, stack.new) }
{
    sum(stack, depth, 2147483648)
}

// What the short route answers. A number that is full leaves it to the full route.
fn short_route(stack: &[u8], depth: usize, flip: u32) -> Short
    ensures { Says (flips flip) (number_at stack.now depth 1) (number_at stack.now depth 0) result }
{
    if places::b1_at(stack, depth, 0) != 0 {
        return Short::Beyond;
    }
    if places::b1_at(stack, depth, 1) != 0 {
        return Short::Beyond;
    }
    addition::short_sum(
        places::b2_at(stack, depth, 1),
        places::low_at(stack, depth, 1),
        places::b2_at(stack, depth, 0),
        places::low_at(stack, depth, 0),
        flip != 0,
    )
}

// What is added to the second number's word flips its sign, for a difference, or is 0. One code adds and subtracts by it.
fn sum(stack: &mut [u8], depth: &mut usize, flip: u32) -> Report
    requires { (flip ≡ 0) ⊎ (flip ≡ 2 ^ 31) }
    ensures { operate_of Shipped stack.old depth.old (literal_of (flips flip)) ≡ (outcome (number_of result) depth.new, stack.new) }
{
    let old = *depth;
    if slots::lacks_at(stack, depth, TAKEN) {
        return slots::refusal(stack, old, TAKEN);
    }
    let short = short_route(stack, old, flip);
    match short {
        Short::Malformed => Report::Malformed,
        Short::Stored(byte, low) => {
            places::put_halves_at(stack, old, 1, byte, low);
            *depth = *depth - TAKEN + LEFT;
            Report::Done
        }
        Short::Exact(word) => {
            let answer = Some(Number { b1: 145, word });
            store(stack, depth, old, answer, TAKEN, LEFT)
        }
        Short::Beyond => full_route(stack, depth, old, flip),
    }
}

fn full_route(stack: &mut [u8], depth: &mut usize, old: usize, flip: u32) -> Report
    requires { ((flip ≡ 0) ⊎ (flip ≡ 2 ^ 31)) × (depth.old ≡ old) × (lacking stack.old old 2 ≡ false)
        × Says (flips flip) (number_at stack.old old 1) (number_at stack.old old 0) Beyond }
    ensures { operate_of Shipped stack.old depth.old (literal_of (flips flip)) ≡ (outcome (number_of result) depth.new, stack.new) }
{
    let Some(b) = term(stack, old, 0, flip) else {
        return Report::Malformed;
    };
    let Some(a) = term(stack, old, 1, 0) else {
        return Report::Malformed;
    };
    let answer = addition::aligned_sum(a.x, a.e, b.x, b.e);
    store(stack, depth, old, answer, TAKEN, LEFT)
}
