// `truncate` of the listing.
ghost use Rattle.std.specs.Prelude.{◌≡◌};
ghost use Rattle.edition.specs.declared.Edition.TheVariants.{Shipped};
ghost use Rattle.truncation.specs.Truncate.{truncated, taken65536};

use number::{Number, TOP_BIT};

// Exponent bytes: of 1, of 65,536, and of the numbers whose mantissa has no digit below 1.
pub(crate) const OF_ONE: u8 = 129;

pub(crate) const OF_65536: u8 = 145;

pub(crate) const OF_WHOLE: u8 = 160;

// Odd, as a word: FF 00 00 00.
const ODD: u32 = 0xFF00_0000;

// What the listing takes for -65,536.
pub fn is_taken_65536(x: Number) -> bool
    ensures { result ≡ taken65536 Shipped x }
{
    if x.b1 != OF_65536 {
        return false;
    }
    x.word / 32768 == 65536
}

pub fn truncate(x: Number) -> Number
    ensures { result ≡ truncated Shipped x }
{
    let e = x.b1;
    let word = x.word;
    if e == 0 {
        return x;
    }
    if e < OF_ONE {
        return Number::ZERO;
    }
    if OF_WHOLE <= e {
        return x;
    }
    let places = OF_WHOLE - e;
    if e < OF_65536 {
        let v = (number::mantissa(word) >> places) as u16;
        return Number {
            b1: 0,
            word: number::short_word((word / TOP_BIT) as u8, v),
        };
    }
    if is_taken_65536(x) {
        return Number { b1: 0, word: ODD };
    }
    Number {
        b1: e,
        word: (word >> places) << places,
    }
}
