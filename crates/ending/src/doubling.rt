// The doublings, all at once: as many as there are zeros above the top bit. A magnitude whose top bit is set, the common case, has none.
ghost use Rattle.std.specs.Prelude.{◌≡◌, ◌≤◌};
ghost use Rattle.ending.specs.Ending.{ended};
ghost use Rattle.ending.specs.Shift.{taken_in};

use crate::closing::{BIAS, close};
use number::{Number, TOP_BIT};

// The digits that so many doublings take in: the next one, which is the lowest of those that are there, comes to stand highest. A sum hands over none, and is done
// at once. It calls itself as `taken_in` is defined: over a range the same steps want a place and a sum carried along, and a law of every prefix.
fn taken_in(digits: u64, places: u32) -> u32
    requires { places ≤ 32 }
    ensures { result ≡ taken_in places digits }
{
    if digits == 0 {
        return 0;
    }
    if places == 0 {
        return 0;
    }
    (((digits % 2) as u32) << (places - 1)) + taken_in(digits / 2, places - 1)
}

// An e below 0 comes to zero whatever t is, so the places are taken from no less than 0.
pub fn ending(sign: u8, t: u32, e: u64, digits: u64) -> Option<Number>
    ensures { result ≡ ended sign t e digits }
{
    if TOP_BIT <= t {
        return close(sign, t, e, digits);
    }
    if t == 0 {
        return Some(Number::ZERO);
    }
    if e < BIAS {
        return Some(Number::ZERO);
    }
    let places = number::leading_zeros(t);
    let fall = places as u64;
    close(
        sign,
        (t << places) + taken_in(digits, places),
        e - fall,
        digits >> fall,
    )
}
