// Literal 5.
ghost use Rattle.std.specs.Prelude.{◌≡◌};
ghost use Rattle.number.specs.Operand.{operand as operandOf, Unpacked};
ghost use Rattle.slots.specs.Reach.{number_at};
ghost use Rattle.literals.specs.Operate.{outcome, operate_of};
ghost use Rattle.dividing.specs.Quotient.{First};
ghost use Rattle.slots.specs.Numbers.{number_of};

use edition::Rom;
use literals::table;
use operands::{operand, store};
use slots::Report;

// A dividend that counts as zero goes the same way apart, so that any other is not asked about again.
pub fn divide<E: Rom>(stack: &mut [u8], depth: &mut usize) -> Report
    ensures { operate_of E.EDITION stack.old depth.old 5 ≡ (outcome (number_of result) depth.new, stack.new) }
{
    let old = *depth;
    if odd::odd_pair::<E>(stack, old) {
        return Report::Malformed;
    }
    if slots::lacks_at(stack, depth, table::DIVIDE_TAKES) {
        return slots::refusal(stack, old, table::DIVIDE_TAKES);
    }
    let Some(a) = operand(stack, old, 1) else {
        return Report::Malformed;
    };
    if a.e == 0 {
        return divided::<E>(stack, depth, old, 0, 0, 0);
    }
    divided::<E>(stack, depth, old, a.sign, a.m, a.e)
}

// With the first number re-stacked. A full divisor and a short one go on apart: the compiler then has each one's exponent where it is used. The parts of an operand
// stand side by side: as one struct, a division took 126.5 instructions in place of 83.0, and 87.5 where these two functions are told to be inlined.
fn divided<E: Rom>(
    stack: &mut [u8],
    depth: &mut usize,
    old: usize,
    sign: u32,
    m: u32,
    e: u32,
) -> Report
    requires { First E.EDITION stack.old depth.old old (operandOf sign m e) }
    ensures { operate_of E.EDITION stack.old depth.old 5 ≡ (outcome (number_of result) depth.new, stack.new) }
{
    let b1 = places::b1_at(stack, old, 0);
    if b1 != 0 {
        let word = places::word_at(stack, old, 0);
        return quotient::<E>(stack, depth, old, sign, m, e, word, word, b1 as u32);
    }
    let Some(b) = number::operand_of(
        places::b2_at(stack, old, 0) as u32,
        places::low_at(stack, old, 0),
    ) else {
        return Report::Malformed;
    };
    quotient::<E>(stack, depth, old, sign, m, e, b.sign, b.m, b.e)
}

// With both re-stacked.
fn quotient<E: Rom>(
    stack: &mut [u8],
    depth: &mut usize,
    old: usize,
    sign: u32,
    m: u32,
    e: u32,
    t: u32,
    n: u32,
    f: u32,
) -> Report
    requires { First E.EDITION stack.old depth.old old (operandOf sign m e) × Unpacked (number_at stack.old old 0) (operandOf t n f) }
    ensures { operate_of E.EDITION stack.old depth.old 5 ≡ (outcome (number_of result) depth.new, stack.new) }
{
    let answer = division::division(E::EDITION, sign, m, e, t, n, f);
    store(
        stack,
        depth,
        old,
        answer,
        table::DIVIDE_TAKES,
        table::DIVIDE_LEAVES,
    )
}
