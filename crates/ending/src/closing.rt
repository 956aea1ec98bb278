// The exponent's ways out, the rounding and the store, once the top bit is set.
ghost use Rattle.std.specs.Prelude.{◌≡◌, ℕ, ◌≤◌};
ghost use Rattle.ending.specs.Ending.{loose, closed};

use number::{Number, TOP_BIT};

// An exponent is kept with this added.
pub const BIAS: u64 = 256;

// The largest exponent byte, so kept.
const LARGEST: u64 = BIAS + 255;

pub fn close(sign: u8, t: u32, e: u64, digits: u64) -> Option<Number>
    ensures { result ≡ closed sign (loose t e digits) }
{
    if LARGEST < e {
        return None;
    }
    if e <= BIAS {
        return least(sign, e);
    }
    Some(Number {
        b1: (e - BIAS) as u8,
        word: number::full_word(sign, t as u64 + digits % 2),
    })
}

// An exponent that is no exponent byte: the smallest number, or zero.
fn least(sign: u8, e: u64) -> Option<Number>
    requires { e ≤ 256 }
    ensures { (t digits : ℕ) → result ≡ closed sign (loose t e digits) }
{
    if e < BIAS {
        return Some(Number::ZERO);
    }
    Some(Number {
        b1: 1,
        word: number::full_word(sign, TOP_BIT as u64),
    })
}
