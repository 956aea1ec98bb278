// A number as the arithmetic takes it, without its re-stacked form being written out.
ghost use Rattle.std.specs.Prelude.{◌≡◌, ℕ, ◌/◌, ◌%◌, ◌^◌, ◌<◌, IfSome};
ghost use Rattle.number.specs.Number.{number, low};
ghost use Rattle.number.specs.Operand.{Measures, Unpacks};

use super::parts::low_half;
use super::zeros::leading_zeros;

// The sign is the top bit of a word, whatever its other bits are. The mantissa's top bit goes without saying. A zero has mantissa 0 and exponent byte 0.
#[derive(Clone, Copy)]
pub struct Operand {
    pub sign: u32,
    pub m: u32,
    pub e: u32,
}

// How far a number whose b1 is 0 is from zero, and a mask of its b2: all ones where it is negative, else 0.
#[derive(Clone, Copy)]
pub struct Magnitude {
    pub mask: u32,
    pub v: u32,
}

// By its b2, as the low byte of a word, and its low half: none where the number is malformed. Of a well-formed one, b2 is 0 or 255, and a mask of its bits makes
// two's complement without a branch on the sign.
pub fn magnitude_of(byte: u32, half: u16) -> Option<Magnitude>
    ensures { ((w : ℕ) → w / 2 ^ 24 ≡ byte % 256 → low (number 0 w) ≡ half → Measures (number 0 w) result) × IfSome result (λ m. m.v < 2 ^ 16) }
{
    let b2 = byte % 256;
    if b2.wrapping_sub(1) < 254 {
        return None;
    }
    let mask = b2 * 16843009;
    Some(Magnitude {
        mask,
        v: (half as u32 ^ mask).wrapping_sub(mask) % 65536,
    })
}

// The re-stacked form of the same.
pub fn operand_of(byte: u32, half: u16) -> Option<Operand>
    ensures { (w : ℕ) → w / 2 ^ 24 ≡ byte % 256 → low (number 0 w) ≡ half → Unpacks (number 0 w) result }
{
    let short = magnitude_of(byte, half)?;
    if short.v == 0 {
        return Some(Operand {
            sign: 0,
            m: 0,
            e: 0,
        });
    }
    let places = leading_zeros(short.v);
    Some(Operand {
        sign: short.mask,
        m: short.v << places,
        e: 160 - places,
    })
}

// The same by its word.
pub fn short_operand(word: u32) -> Option<Operand>
    ensures { Unpacks (number 0 word) result }
{
    operand_of(word / 16777216, low_half(word))
}
