// Int: the whole part of a negative number, and one less where a part below one was cut off. The definition subtracts; what it comes to is read off
// the bits here.
ghost use Rattle.std.specs.Prelude.{◌≡◌, cond, ℕ, ◌-◌, ◌≤◌, ◌<◌, eqb};
ghost use Rattle.edition.specs.declared.Edition.TheVariants.{Shipped};
ghost use Rattle.number.specs.Number.{number, sign};
ghost use Rattle.truncation.specs.Int.{int_of};

use crate::cutting::{OF_65536, OF_ONE, OF_WHOLE, is_taken_65536, truncate};
use number::{CARRY, Number, TOP_BIT};

// The short -1, as a word: FF FF FF 00.
const SHORT_MINUS_ONE: u32 = 0xFFFF_FF00;

// -1 as a full number.
const MINUS_ONE: Number = Number {
    b1: OF_ONE,
    word: TOP_BIT,
};

fn below_one(word: u32) -> u32
    ensures { (e : ℕ) → 0 < e → e < 129 → int_of Shipped (number e word) ≡ Some (number 0 result) }
{
    if word < TOP_BIT {
        return 0;
    }
    SHORT_MINUS_ONE
}

fn flipped(sign: u32, q: u16) -> u16
    ensures { result ≡ cond (eqb sign 0) q (65535 - q) }
{
    if sign == 0 {
        return q;
    }
    !q
}

// Of a number from 1 on whose whole part is short. A negative one goes down: one less than the mantissa has the whole part that is one less than what int is away from
// zero, and that, flipped, is its low half. So the sign is no branch, since it goes by the data.
fn short_floor(e: u8, word: u32) -> u32
    requires { (129 ≤ e) × (e < 145) }
    ensures { int_of Shipped (number e word) ≡ Some (number 0 result) }
{
    let sign = word / TOP_BIT;
    let q = (number::mantissa(word) - sign >> (OF_WHOLE - e)) as u16;
    number::halves_word((255 * sign) as u8, flipped(sign, q))
}

// Of a negative number whose whole part is not short, and whose last bit is worth less than 2.
fn floor_of(x: Number) -> Number
    requires { (sign x ≡ 1) × (145 ≤ x.b1) × (x.b1 < 160) }
    ensures { int_of Shipped x ≡ Some result }
{
    let e = x.b1;
    let word = x.word;
    // Odd, less 1, goes the full route, where it counts as zero.
    if is_taken_65536(x) {
        return MINUS_ONE;
    }
    let m = number::mantissa(word) as u64;
    let places = OF_WHOLE - e;
    let cut = (m >> places) << places;
    if cut == m {
        return x;
    }
    let more = cut + (1u64 << places);
    if more < CARRY {
        return Number {
            b1: e,
            word: number::full_word(1, more),
        };
    }
    Number {
        b1: e + 1,
        word: number::full_word(1, more / 2),
    }
}

pub fn int(x: Number) -> Number
    ensures { int_of Shipped x ≡ Some result }
{
    let e = x.b1;
    let word = x.word;
    if e == 0 {
        if word < TOP_BIT {
            return x;
        }
        if number::low_half(word) == 0 {
            return MINUS_ONE;
        }
        return x;
    }
    if e < OF_ONE {
        return Number {
            b1: 0,
            word: below_one(word),
        };
    }
    if e < OF_65536 {
        return Number {
            b1: 0,
            word: short_floor(e, word),
        };
    }
    if e < OF_WHOLE {
        if word < TOP_BIT {
            return truncate(x);
        }
        return floor_of(x);
    }
    x
}
