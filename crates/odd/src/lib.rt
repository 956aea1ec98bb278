// Odd, the number 00 FF 00 00, which the ROM makes by mistake: among a literal's operands, and as its answer.
#![tactic(auto)]

ghost use Rattle.std.specs.Prelude.{◌≡◌};
ghost use Rattle.number.specs.Number.{odd};
ghost use Rattle.slots.specs.Reach.{number_at};
ghost use Rattle.odd.specs.Mending.{odd_in, odd_pair, mended_top};

use edition::{Edition, Rom};

fn odd_at(stack: &[u8], depth: usize, above: u8) -> bool
    ensures { result ≡ odd (number_at stack.now depth above) }
{
    if places::b1_at(stack, depth, above) != 0 {
        return false;
    }
    places::word_at(stack, depth, above) / 256 == 16711680
}

pub fn odd_top<E: Rom>(stack: &[u8], depth: usize) -> bool
    ensures { result ≡ odd_in E.EDITION (number_at stack.now depth 0) }
{
    match E::EDITION {
        Edition::Shipped => false,
        Edition::Mended => odd_at(stack, depth, 0),
    }
}

// With fewer than two numbers it is report 2 that refuses.
pub fn odd_pair<E: Rom>(stack: &[u8], depth: usize) -> bool
    ensures { result ≡ odd_pair E.EDITION stack.now depth }
{
    match E::EDITION {
        Edition::Shipped => false,
        Edition::Mended => {
            if slots::lacks(stack, depth, 2) {
                return false;
            }
            if odd_at(stack, depth, 1) {
                return true;
            }
            odd_at(stack, depth, 0)
        }
    }
}

pub fn mend_top<E: Rom>(stack: &mut [u8], depth: usize)
    ensures { stack.new ≡ mended_top E.EDITION stack.old depth }
{
    if odd_top::<E>(stack, depth) {
        places::put_at(stack, depth, 0, 145, 2147483648);
    }
}
