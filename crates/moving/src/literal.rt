// Exchange, delete and duplicate, which are the same in either edition. Delete and duplicate are made twice, for a call and for a loop over one stack: in a loop
// what a stack has is asked by one comparison, with a quotient that the compiler computes once.
ghost use Rattle.std.specs.Prelude.{◌≡◌, ◌+◌, not};
ghost use Rattle.edition.specs.declared.Edition.{Edition};
ghost use Rattle.literals.specs.Operate.{outcome, operate_of};
ghost use Rattle.slots.specs.Numbers.{number_of};
ghost use Rattle.slots.specs.Reach.{lacking, copied_of};

use literals::table;
use slots::Report;

pub fn exchange(stack: &mut [u8], depth: &usize) -> Report
    ensures { (ed : Edition) → operate_of ed stack.old depth.now 1 ≡ (outcome (number_of result) depth.now, stack.new) }
{
    let old = *depth;
    if slots::lacks_at(stack, depth, table::EXCHANGE_TAKES) {
        return slots::refusal(stack, old, table::EXCHANGE_TAKES);
    }
    let lower1 = places::b1_at(stack, old, 1);
    let lower = places::word_at(stack, old, 1);
    let top1 = places::b1_at(stack, old, 0);
    let top = places::word_at(stack, old, 0);
    places::put_at(stack, old, 1, top1, top);
    places::put_at(stack, old, 0, lower1, lower);
    Report::Done
}

// Whether a number lacks that would be on top.
pub(crate) fn is_empty<const IN_LOOP: bool>(stack: &[u8], depth: usize) -> bool
    ensures { result ≡ lacking stack.now depth 1 }
{
    if IN_LOOP {
        return slots::lacks_top(stack, depth);
    }
    slots::lacks(stack, depth, table::DELETE_TAKES)
}

pub fn delete<const IN_LOOP: bool>(stack: &[u8], depth: &mut usize) -> Report
    ensures { (ed : Edition) → operate_of ed stack.now depth.old 2 ≡ (outcome (number_of result) depth.new, stack.now) }
{
    let old = *depth;
    if is_empty::<IN_LOOP>(stack, old) {
        return slots::refusal(stack, old, table::DELETE_TAKES);
    }
    *depth = old - table::DELETE_TAKES + table::DELETE_LEAVES;
    Report::Done
}

// Whether there was a top, and room. The stack must have what the literal leaves: in a call that is asked of the depth after it, which wraps to 0 where it would
// be too large for any stack. Inlined before it is optimized by itself, the depth after it is one sum for the question and for what is stored.
#[inline(always)]
fn copies<const IN_LOOP: bool>(stack: &mut [u8], depth: usize) -> bool
    ensures { (not result ≡ lacking stack.old (depth + 1) 2) × (stack.new ≡ copied_of stack.old depth) }
{
    if IN_LOOP {
        return places::copy_top(stack, depth);
    }
    let after = depth.wrapping_add(table::DUPLICATE_LEAVES - table::DUPLICATE_TAKES);
    if slots::lacks(stack, after, table::DUPLICATE_LEAVES) {
        return false;
    }
    let b1 = places::b1_at(stack, after, 1);
    let word = places::word_at(stack, after, 1);
    places::put_at(stack, after, 0, b1, word);
    true
}

pub fn duplicate<const IN_LOOP: bool>(stack: &mut [u8], depth: &mut usize) -> Report
    ensures { (ed : Edition) → operate_of ed stack.old depth.old 49 ≡ (outcome (number_of result) depth.new, stack.new) }
{
    let old = *depth;
    if !copies::<IN_LOOP>(stack, old) {
        return slots::refusal(stack, old, table::DUPLICATE_TAKES);
    }
    *depth = old - table::DUPLICATE_TAKES + table::DUPLICATE_LEAVES;
    Report::Done
}
