// The value of a five-byte number as a 64-bit double, always exact. It takes any five bytes for a number.
#![tactic(auto)]

ghost use Rattle.std.specs.Prelude.{◌≡◌};
ghost use Rattle.number.specs.Number.{number};
ghost use Rattle.value.specs.Double.{double_of};

use number::{Number, TOP_BIT};

// What makes an exponent byte a double's exponent field: the double's bias, less the byte of a mantissa that counts by ones.
const SCALE: u64 = 1023 - 160;

// The lowest bit of a double's exponent field.
const FIELD: u64 = 1 << 52;

// Not `From`: what a number is worth is asked for by this name, which docs/READING.md has.
pub fn double(x: Number) -> f64
    ensures { result ≡ double_of x }
{
    let e = x.b1;
    let word = x.word;
    if e == 0 {
        return whole(word);
    }
    // The mantissa times 2^(e - 160). The factor is a double of its own: a power of two, whose exponent field is e - 160 + 1023.
    let v = (number::mantissa(word) as f64) * f64::from_bits((e as u64 + SCALE) * FIELD);
    if TOP_BIT <= word {
        return -v;
    }
    v
}

// What is not full is a whole number, and needs no power of two.
fn whole(word: u32) -> f64
    ensures { result ≡ double_of (number 0 word) }
{
    let v = number::short_magnitude(word) as i32;
    if word < TOP_BIT {
        return v as f64;
    }
    (-v) as f64
}
