// Division. The listing finds 33 digits by trial subtractions; one machine division finds the same digits.
ghost use Rattle.std.specs.Prelude.{◌≡◌, ◌+◌, ◌-◌, ◌^◌, ◌/◌, ◌%◌, ◌<◌};
ghost use Rattle.edition.specs.declared.Edition.TheVariants.{Mended};
ghost use Rattle.number.specs.Number.{full_of};
ghost use Rattle.division.specs.Rounds.{rounds33, digit34};
ghost use Rattle.division.specs.Division.{restacked_quotient};

use edition::Edition;
use ending::BIAS;
use number::{CARRY, Number, TOP_BIT};

// The 33 digits of the mantissas' quotient, read as one binary number. A mantissa's top bit goes without saying. It is set here, which also spares
// the question at run time whether a shorter division would do.
fn digits(m: u32, n: u32) -> u64
    ensures { (result ≡ (rounds33 (m % 2 ^ 31 + 2 ^ 31) (n % 2 ^ 31 + 2 ^ 31)).digits) × (result < 2 ^ 33 - 1) }
{
    number::mantissa(m) as u64 * CARRY / number::mantissa(n) as u64
}

// The 34th digit where it is tried after a doubling. What is left after 33 rounds is the same division's remainder.
fn doubled_digit(m: u32, n: u32) -> u64
    ensures { (result ≡ digit34 Mended (n % 2 ^ 31 + 2 ^ 31) (rounds33 (m % 2 ^ 31 + 2 ^ 31) (n % 2 ^ 31 + 2 ^ 31))) × (result < 2) }
{
    let by = number::mantissa(n) as u64;
    let left = number::mantissa(m) as u64 * CARRY % by;
    if 2 * left < by {
        return 0;
    }
    1
}

// The shipped ROM tries without a doubling, and never goes.
fn next_digit(edition: Edition, m: u32, n: u32) -> u64
    ensures { (result ≡ digit34 edition (n % 2 ^ 31 + 2 ^ 31) (rounds33 (m % 2 ^ 31 + 2 ^ 31) (n % 2 ^ 31 + 2 ^ 31))) × (result < 2) }
{
    match edition {
        Edition::Shipped => 0,
        Edition::Mended => doubled_digit(m, n),
    }
}

// Of re-stacked numbers, each by a word with its sign on top, its mantissa, and its exponent byte as the low byte of a word. The compiler knows that an
// operand's has nothing above it, and drops the remainder; of a byte it would not know that it stands in a whole register. The parts go side by side: where `dividing` handed on one
// operand as a struct, a division took 126.5 instructions in place of 83.0.
pub fn division(edition: Edition, s: u32, m: u32, e: u32, t: u32, n: u32, f: u32) -> Option<Number>
    ensures { result ≡ restacked_quotient edition (full_of (s / 2 ^ 31) (e % 256) m) (full_of (t / 2 ^ 31) (f % 256) n) }
{
    let first = e % 256;
    let second = f % 256;
    if second == 0 {
        return None;
    }
    if first == 0 {
        return Some(Number::ZERO);
    }
    let q = digits(m, n);
    let sign = (s ^ t) / TOP_BIT;
    // A quotient below 2^32 needs one doubling, which takes in digit 33 and lowers the exponent. Any other is rounded by it. Which it is, is as good
    // as random, so the shift goes by it and no branch does.
    let whole = q / CARRY;
    // The ending keeps an exponent as e + 256.
    ending::close(
        sign as u8,
        ((q + whole) >> whole) as u32,
        first as u64 + 128 + BIAS - second as u64 + whole,
        next_digit(edition, m, n) >> whole,
    )
}
