// Reports 1 and 2: whether a stack is within its limits and has the numbers that a literal takes.
ghost use Rattle.std.specs.Prelude.{◌≡◌};
ghost use Rattle.slots.specs.Numbers.{number_of};
ghost use Rattle.slots.specs.Reach.{lacking, refusal_of};

use crate::limits::over_limits;
use crate::report::Report;

// Each literal asks this first, and what the report is only where the answer is yes. It asks by itself: the compiler then drops the questions of `places` behind it.
// In 32 bits the last product is one that nothing else computes: the compiler then tests and jumps, where it would else compute all four answers.
pub fn lacks(stack: &[u8], depth: usize, takes: usize) -> bool
    ensures { result ≡ lacking stack.now depth takes }
{
    if 16000 < stack.len() {
        return true;
    }
    if depth < takes {
        return true;
    }
    if 3200 < depth {
        return true;
    }
    (stack.len() as u32) < 5 * (depth as u32)
}

// The same of a depth that is lent. It is read behind the first test, so that the compiler has to jump there too, and the last test may then go by the
// product that an address is made of.
pub fn lacks_at(stack: &[u8], depth: &usize, takes: usize) -> bool
    ensures { result ≡ lacking stack.now depth.now takes }
{
    let len = stack.len();
    if 16000 < len {
        return true;
    }
    let d = *depth;
    if d < takes {
        return true;
    }
    if 3200 < d {
        return true;
    }
    9223372036854775808 <= len.wrapping_sub(5 * d)
}

// Whether there is no top, by one comparison behind the limit of the length: depth 0 wraps to a slot that no stack has. A caller that asks it of one stack
// over and over has the quotient computed once.
pub fn lacks_top(stack: &[u8], depth: usize) -> bool
    ensures { result ≡ lacking stack.now depth 1 }
{
    let len = stack.len();
    if 16000 < len {
        return true;
    }
    len / 5 <= depth.wrapping_sub(1)
}

// Which report it is; no room where it is neither of the others. It asks anew and in its own way (`over_limits`): with the same tests as above, the compiler would
// compute them once for both, and branch on none.
pub fn refusal(stack: &[u8], depth: usize, takes: usize) -> Report
    ensures { number_of result ≡ refusal_of stack.now depth takes }
{
    if over_limits(stack, depth) {
        return Report::OverLimits;
    }
    if depth < takes {
        return Report::TooFew;
    }
    Report::NoRoom
}
