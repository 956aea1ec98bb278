// The answer of two numbers, in the first one's slot.
ghost use Rattle.std.specs.Prelude.{◌≡◌};
ghost use Rattle.operands.specs.Stored.{stored_at};
ghost use Rattle.slots.specs.Numbers.{number_of};

use number::Number;
use slots::Report;

// The depth is read again where it is written: one that is kept costs a register for the whole operation. What was taken and is left is the literal's row, of which
// `stored_at` speaks for any.
pub fn store(
    stack: &mut [u8],
    depth: &mut usize,
    old: usize,
    answer: Option<Number>,
    taken: usize,
    left: usize,
) -> Report
    ensures { stored_at stack.old depth.old old answer taken left ≡ (number_of result, depth.new, stack.new) }
{
    match answer {
        Some(n) => {
            places::put_at(stack, old, 1, n.b1, n.word);
            *depth = depth.wrapping_sub(taken).wrapping_add(left);
            Report::Done
        }
        None => Report::TooBig,
    }
}
