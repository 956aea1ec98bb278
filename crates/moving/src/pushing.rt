// A push: five bytes of the caller's into the slot above the top.
ghost use Rattle.std.specs.Prelude.{◌≡◌};
ghost use Rattle.number.specs.Number.{number as number_of_parts};
ghost use Rattle.slots.specs.Numbers.{number_of};
ghost use Rattle.slots.specs.Push.{push_of};
ghost use Rattle.slots.specs.Reach.{put_at};
ghost use Rattle.literals.specs.Operate.{outcome};

use crate::literal::is_empty;
use slots::{Outcome, Report};

fn put_top<const IN_LOOP: bool>(stack: &mut [u8], depth: usize, b1: u8, word: u32)
    ensures { stack.new ≡ put_at stack.old depth 0 (number_of_parts b1 word) }
{
    if IN_LOOP {
        places::put_top(stack, depth, b1, word);
    } else {
        places::put_at(stack, depth, 0, b1, word);
    }
}

// With the depth moved where it stands. Room is asked for by the depth after it, which wraps to 0 where it would be too large for any stack. The bytes are
// tested as the one number of a stack of their own.
pub fn push_in_place<const IN_LOOP: bool>(
    stack: &mut [u8],
    depth: &mut usize,
    number: &[u8],
) -> Report
    ensures { push_of stack.old depth.old number.now ≡ (outcome (number_of result) depth.new, stack.new) }
{
    let old = *depth;
    let after = old.wrapping_add(1);
    if is_empty::<IN_LOOP>(stack, after) {
        return slots::refusal(stack, old, 0);
    }
    if number.len() != 5 {
        return Report::Malformed;
    }
    if places::malformed_at(number, 1, 0) {
        return Report::Malformed;
    }
    let b1 = places::b1_at(number, 1, 0);
    let word = places::word_at(number, 1, 0);
    put_top::<IN_LOOP>(stack, after, b1, word);
    *depth = after;
    Report::Done
}

pub fn push(stack: &mut [u8], depth: usize, number: &[u8]) -> Outcome
    ensures { push_of stack.old depth number.now ≡ (outcome (number_of result.report) result.depth, stack.new) }
{
    let mut after = depth;
    let report = push_in_place::<false>(stack, &mut after, number);
    Outcome {
        report,
        depth: after,
    }
}
