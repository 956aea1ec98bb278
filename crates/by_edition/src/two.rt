// Subtract, multiply and add.
ghost use Rattle.std.specs.Prelude.{◌≡◌};
ghost use Rattle.literals.specs.Operate.{outcome, operate_of};
ghost use Rattle.slots.specs.Numbers.{number_of};

use edition::Rom;
use odd::{mend_top, odd_pair};
use slots::Report;

pub fn add<E: Rom>(stack: &mut [u8], depth: &mut usize) -> Report
    ensures { operate_of E.EDITION stack.old depth.old 15 ≡ (outcome (number_of result) depth.new, stack.new) }
{
    if odd_pair::<E>(stack, *depth) {
        return Report::Malformed;
    }
    let report = adding::add(stack, depth);
    if report.is_done() {
        mend_top::<E>(stack, *depth);
    }
    report
}

pub fn subtract<E: Rom>(stack: &mut [u8], depth: &mut usize) -> Report
    ensures { operate_of E.EDITION stack.old depth.old 3 ≡ (outcome (number_of result) depth.new, stack.new) }
{
    if odd_pair::<E>(stack, *depth) {
        return Report::Malformed;
    }
    let report = adding::subtract(stack, depth);
    if report.is_done() {
        mend_top::<E>(stack, *depth);
    }
    report
}

pub fn multiply<E: Rom>(stack: &mut [u8], depth: &mut usize) -> Report
    ensures { operate_of E.EDITION stack.old depth.old 4 ≡ (outcome (number_of result) depth.new, stack.new) }
{
    if odd_pair::<E>(stack, *depth) {
        return Report::Malformed;
    }
    multiplying::multiply(stack, depth)
}
