// Multiplication: one machine product, where the ROM adds and shifts.
ghost use Rattle.std.specs.Prelude.{◌≡◌, ℕ, ◌+◌, ◌*◌, ◌^◌, ◌/◌, ◌%◌};
ghost use Rattle.number.specs.Number.{number, low};
ghost use Rattle.multiplication.specs.Places.{product_at};
ghost use Rattle.multiplication.specs.ShortProduct.{Multiplied};

use ending::BIAS;
use number::{CARRY, Magnitude, Number, TOP_BIT};

// Of two numbers whose b1 is 0, each by its b2, as the low byte of a word, and its low half: none where one is malformed. Their product is below 2^32, so nothing
// is rounded: beyond 65,535 it is the full number of its value, and no number is re-stacked. A magnitude is taken apart where it is found: with `?` it stays one
// machine word of two halves, and a product of short numbers took 75.0 instructions in place of 70.0.
pub fn short_product(b: u32, h: u16, c: u32, k: u16) -> Option<Number>
    ensures { (w v : ℕ) → w / 2 ^ 24 ≡ b % 256 → low (number 0 w) ≡ h → v / 2 ^ 24 ≡ c % 256 → low (number 0 v) ≡ k → Multiplied (number 0 w) (number 0 v) result }
{
    let Some(Magnitude { mask: s, v: m }) = number::magnitude_of(b, h) else {
        return None;
    };
    let Some(Magnitude { mask: t, v: n }) = number::magnitude_of(c, k) else {
        return None;
    };
    let v = m * n;
    if v == 0 {
        return Some(Number { word: 0, b1: 0 });
    }
    let sign = (s ^ t) / 2147483648;
    if v < 65536 {
        return Some(Number {
            b1: 0,
            word: number::short_word(sign as u8, v as u16),
        });
    }
    let places = number::leading_zeros(v);
    Some(Number {
        b1: (160 - places) as u8,
        word: number::full_word(sign as u8, (v << places) as u64),
    })
}

// Of a mantissa, whose top bit goes without saying, and what it is multiplied by: another mantissa, or a short number's magnitude, which need not be made normal
// first. The sign is the top bit of a word, and e is the sum of the exponent bytes, a magnitude's being 160.
pub fn multiplication(sign: u32, m: u32, n: u32, e: u32) -> Option<Number>
    ensures { result ≡ product_at (sign / 2 ^ 31) ((m % 2 ^ 31 + 2 ^ 31) * n) e }
{
    let p = number::mantissa(m) as u64 * n as u64;
    if p == 0 {
        return Some(Number::ZERO);
    }
    let places = p.leading_zeros() as u64;
    // The ending keeps an exponent as e + 256.
    let before = e as u64 + 128 - places;
    if before <= BIAS {
        return ending::close((sign / TOP_BIT) as u8, 0, before, 0);
    }
    // From its top bit on, the mantissa and one digit more, which rounds it. Where that carries to 2^32, the exponent rises and the bits that are stored are
    // those of 2^31.
    let rounded = ((p << places) / TOP_BIT as u64 + 1) / 2;
    ending::close(
        (sign / TOP_BIT) as u8,
        (rounded % TOP_BIT as u64) as u32,
        before + rounded / CARRY,
        0,
    )
}
