// Negate, int, truncate and re-stack.
ghost use Rattle.std.specs.Prelude.{◌≡◌};
ghost use Rattle.slots.specs.Reach.{number_at};
ghost use Rattle.by_edition.specs.IntLaws.{taken_in, int_top};
ghost use Rattle.literals.specs.Operate.{outcome, operate_of};
ghost use Rattle.slots.specs.Numbers.{number_of};

use edition::{Edition, Rom};
use number::Number;
use odd::{mend_top, odd_top};
use slots::Report;

pub fn negate<E: Rom>(stack: &mut [u8], depth: &usize) -> Report
    ensures { operate_of E.EDITION stack.old depth.now 27 ≡ (outcome (number_of result) depth.now, stack.new) }
{
    if odd_top::<E>(stack, *depth) {
        return Report::Malformed;
    }
    unary::negate(stack, depth)
}

pub fn re_stack<E: Rom>(stack: &mut [u8], depth: &usize) -> Report
    ensures { operate_of E.EDITION stack.old depth.now 61 ≡ (outcome (number_of result) depth.now, stack.new) }
{
    if odd_top::<E>(stack, *depth) {
        return Report::Malformed;
    }
    unary::re_stack(stack, depth)
}

pub fn truncate<E: Rom>(stack: &mut [u8], depth: &usize) -> Report
    ensures { operate_of E.EDITION stack.old depth.now 58 ≡ (outcome (number_of result) depth.now, stack.new) }
{
    if odd_top::<E>(stack, *depth) {
        return Report::Malformed;
    }
    let report = unary::truncate(stack, depth);
    if report.is_done() {
        mend_top::<E>(stack, *depth);
    }
    report
}

// What the shipped edition takes for -65,536, where the edition has no such test.
fn taken_top<E: Rom>(stack: &[u8], depth: usize) -> bool
    ensures { result ≡ taken_in E.EDITION (number_at stack.now depth 0) }
{
    match E::EDITION {
        Edition::Shipped => false,
        Edition::Mended => truncation::is_taken_65536(Number {
            b1: places::b1_at(stack, depth, 0),
            word: places::word_at(stack, depth, 0),
        }),
    }
}

// Of that, int is -65,536, or -65,537 where a part below one was cut off.
fn int_top(stack: &mut [u8], depth: usize)
    ensures { stack.new ≡ int_top stack.old depth }
{
    if places::word_at(stack, depth, 0) != 2147483648 {
        places::put_at(stack, depth, 0, 145, 2147516416);
    }
}

pub fn int<E: Rom>(stack: &mut [u8], depth: &usize) -> Report
    ensures { operate_of E.EDITION stack.old depth.now 39 ≡ (outcome (number_of result) depth.now, stack.new) }
{
    if odd_top::<E>(stack, *depth) {
        return Report::Malformed;
    }
    if taken_top::<E>(stack, *depth) {
        int_top(stack, *depth);
        return Report::Done;
    }
    let report = unary::int(stack, depth);
    if report.is_done() {
        mend_top::<E>(stack, *depth);
    }
    report
}
