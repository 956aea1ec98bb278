// The literals that take one number and look at its form: negate, int, truncate and re-stack. None is ever too big, and none moves the depth.
#![tactic(auto)]

ghost use Rattle.std.specs.Prelude.{◌≡◌};
ghost use Rattle.edition.specs.declared.Edition.TheVariants.{Shipped};
ghost use Rattle.literals.specs.Operate.{outcome, operate_of};
ghost use Rattle.slots.specs.Numbers.{number_of};

use literals::table;
use number::Number;
use slots::Report;

pub fn negate(stack: &mut [u8], depth: &usize) -> Report
    ensures { operate_of Shipped stack.old depth.now 27 ≡ (outcome (number_of result) depth.now, stack.new) }
{
    let old = *depth;
    if slots::lacks_at(stack, depth, table::NEGATE_TAKES) {
        return slots::refusal(stack, old, table::NEGATE_TAKES);
    }
    if places::malformed_at(stack, old, 0) {
        return Report::Malformed;
    }
    let b1 = places::b1_at(stack, old, 0);
    let word = places::word_at(stack, old, 0);
    if b1 != 0 {
        let flipped = word.wrapping_add(number::TOP_BIT);
        places::put_at(stack, old, 0, b1, flipped);
        return Report::Done;
    }
    // With b2 lowest: taken from 255, it has the other sign byte and the low half in two's complement.
    let four = number::swapped(word) % 16777216;
    if four == 0 {
        return Report::Done;
    }
    let other = 255u32.wrapping_sub(four) % 16777216;
    places::put_at(stack, old, 0, 0, number::swapped(other));
    Report::Done
}

pub fn re_stack(stack: &mut [u8], depth: &usize) -> Report
    ensures { operate_of Shipped stack.old depth.now 61 ≡ (outcome (number_of result) depth.now, stack.new) }
{
    let old = *depth;
    if slots::lacks_at(stack, depth, table::RE_STACK_TAKES) {
        return slots::refusal(stack, old, table::RE_STACK_TAKES);
    }
    let b1 = places::b1_at(stack, old, 0);
    if b1 != 0 {
        return Report::Done;
    }
    let Some(n) = number::operand_of(
        places::b2_at(stack, old, 0) as u32,
        places::low_at(stack, old, 0),
    ) else {
        return Report::Malformed;
    };
    if n.e == 0 {
        places::put_at(stack, old, 0, 0, 0);
        return Report::Done;
    }
    let word = n.m % 2147483648 + n.sign / 2147483648 * 2147483648;
    places::put_at(stack, old, 0, (n.e % 256) as u8, word);
    Report::Done
}

pub fn truncate(stack: &mut [u8], depth: &usize) -> Report
    ensures { operate_of Shipped stack.old depth.now 58 ≡ (outcome (number_of result) depth.now, stack.new) }
{
    let old = *depth;
    if slots::lacks_at(stack, depth, table::TRUNCATE_TAKES) {
        return slots::refusal(stack, old, table::TRUNCATE_TAKES);
    }
    if places::malformed_at(stack, old, 0) {
        return Report::Malformed;
    }
    let b1 = places::b1_at(stack, old, 0);
    if b1 == 0 {
        return Report::Done;
    }
    if 159 < b1 {
        return Report::Done;
    }
    let word = places::word_at(stack, old, 0);
    let n = truncation::truncate(Number { b1, word });
    places::put_at(stack, old, 0, n.b1, n.word);
    Report::Done
}

pub fn int(stack: &mut [u8], depth: &usize) -> Report
    ensures { operate_of Shipped stack.old depth.now 39 ≡ (outcome (number_of result) depth.now, stack.new) }
{
    let old = *depth;
    if slots::lacks_at(stack, depth, table::INT_TAKES) {
        return slots::refusal(stack, old, table::INT_TAKES);
    }
    if places::malformed_at(stack, old, 0) {
        return Report::Malformed;
    }
    let b1 = places::b1_at(stack, old, 0);
    let word = places::word_at(stack, old, 0);
    if b1 != 0 {
        let n = truncation::int(Number { b1, word });
        places::put_at(stack, old, 0, n.b1, n.word);
        return Report::Done;
    }
    // Of what is not full, odd alone does not stay: FF 00 00. It becomes -1.
    if word / 256 != 16711680 {
        return Report::Done;
    }
    places::put_at(stack, old, 0, 129, 2147483648);
    Report::Done
}
