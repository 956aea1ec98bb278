// The full route of `addition`, on mantissas that have their signs.
ghost use Rattle.std.specs.Prelude.{◌≡◌, ◌+◌, ◌%◌, ◌^◌, ◌<◌, pos, ◌+ℤ◌, int_rem, unsigned_abs};
ghost use Rattle.number.specs.Value.{signed};
ghost use Rattle.addition.specs.Addition.{aligned, ended_sum, signed_sum};

use ending::BIAS;
use number::{CARRY, Number};
use std::hint::select_unpredictable;

// A mantissa moved down by some places, halves towards plus infinity. Twice it is moved, and half of one more than that is the floor: no place is a case of
// its own.
fn shifted(x: i64, places: u32) -> i64
    requires { unsigned_abs x < 2 ^ 32 }
    ensures { result ≡ aligned places x }
{
    if 32 < places {
        return 0;
    }
    ((2 * x >> places) + 1) >> 1
}

// The ending of a sum, which may have carried into a 33rd bit: then half of it has its top bit set.
fn carry_and_end(sign: u8, t: u64, e: u32) -> Option<Number>
    requires { (sign < 2) × (t + 1 < 2 ^ 33) × (e < 256) }
    ensures { result ≡ ended_sum (signed sign t) e }
{
    if t < CARRY {
        return ending::ending(sign, t as u32, e as u64 + BIAS, 0);
    }
    if e == 255 {
        return None;
    }
    Some(Number {
        b1: (e + 1) as u8,
        word: number::full_word(sign, (t + 1 - sign as u64) / 2),
    })
}

fn ended(z: i64, e: u32) -> Option<Number>
    requires { (unsigned_abs z + 1 < 2 ^ 33) × (e < 256) }
    ensures { result ≡ ended_sum z e }
{
    carry_and_end(z.is_negative() as u8, z.unsigned_abs(), e)
}

// Two mantissas whose exponent bytes are so many places apart, the larger first.
fn summed(x: i64, y: i64, places: u32, e: u32) -> Option<Number>
    requires { (unsigned_abs x < 2 ^ 32) × (unsigned_abs y < 2 ^ 32) × (e < 256) }
    ensures { result ≡ ended_sum (x +ℤ aligned places y) e }
{
    ended(x + shifted(y, places), e)
}

fn low_bits(x: i64) -> i64
    ensures { result ≡ int_rem x (pos 4294967296) }
{
    x % CARRY as i64
}

// Of two mantissas with their signs and their exponent bytes, each the low bits of what is handed over: the compiler knows that there is nothing above. The larger
// comes first by choices and not by a jump, since which it is goes by the data. Twice its exponent byte less both is how far they are apart. An exponent byte is a word:
// as a byte the compiler does not know that it stands in a whole register. The parts of the two go side by side: `adding` has each where it found it,
// and a struct of them would be taken apart here at once.
pub fn aligned_sum(x: i64, e: u32, y: i64, f: u32) -> Option<Number>
    ensures { result ≡ signed_sum (int_rem x (pos 4294967296)) (e % 256) (int_rem y (pos 4294967296)) (f % 256) }
{
    let m = low_bits(x);
    let n = low_bits(y);
    let first = e % 256;
    let second = f % 256;
    let late = first < second;
    // The order of the two makes one comparison serve this choice and both of those below.
    let most = second.max(first);
    summed(
        select_unpredictable(late, n, m),
        select_unpredictable(late, m, n),
        2 * most - (first + second),
        most,
    )
}
