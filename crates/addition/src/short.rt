// The short route of `addition`, for two numbers whose b1 is 0, each by its sign byte and its low half.
ghost use Rattle.std.specs.Prelude.{◌≡◌, ℕ, ◌/◌, ◌^◌};
ghost use Rattle.number.specs.Number.{number, low};
ghost use Rattle.addition.specs.SecondHalves.{second_halves, added_halves};
ghost use Rattle.addition.specs.SignBytes.{Says, seventeen_of};

#[derive(Clone, Copy)]
pub enum Short {
    // A variant and not the None of an Option: one match tells the refusal and the three ways of a sum apart.
    Malformed,
    // The sum's sign byte and low half.
    Stored(u8, u16),
    // The word of the sum, a full number whose b1 is 145: it has seventeen digits.
    Exact(u32),
    // The sum goes the full route.
    Beyond,
}

#[derive(Clone, Copy)]
struct Halves {
    byte: u8,
    low: u16,
}

// The low halves and, with the carry, the sign bytes. Taking away is adding what is negated; odd is negated to zero, as zero is.
fn total(b: u8, first: u16, c: u8, other: u16, less: bool) -> Halves
    ensures { result ≡ added_halves b first (second_halves less c other) }
{
    if less {
        if other == 0 {
            return Halves {
                byte: b,
                low: first,
            };
        }
        let (low, borrow) = first.overflowing_sub(other);
        return Halves {
            byte: b.wrapping_sub(c).wrapping_sub(borrow as u8),
            low,
        };
    }
    let low = first.wrapping_add(other);
    // Found from the wrapped sum.
    let carry = low < first;
    Halves {
        byte: b.wrapping_add(c).wrapping_add(carry as u8),
        low,
    }
}

// The sign of a sum that is not short stands in place of its first digit.
fn seventeen(byte: u8, low: u16) -> u32
    ensures { result ≡ seventeen_of byte low }
{
    let digits = low as u32 * 32768;
    if byte < 128 {
        return digits;
    }
    digits.wrapping_neg()
}

// The sign bytes settle the seventeenth bit, as in the listing: they and the carry make 0 or 255, a sign byte again, where the sum is stored short. A short
// number comes as its sign byte and low half: as one word it is read before b1 is tested, and taken apart again, two instructions more.
pub fn short_sum(b: u8, first: u16, c: u8, other: u16, less: bool) -> Short
    ensures { (x y : ℕ) → x / 2 ^ 24 ≡ b → low (number 0 x) ≡ first → y / 2 ^ 24 ≡ c → low (number 0 y) ≡ other
        → Says less (number 0 x) (number 0 y) result }
{
    // One more than 00 or FF is 1 or 0, and one question asks both.
    let forms = b.wrapping_add(1) | c.wrapping_add(1);
    if forms > 1 {
        return Short::Malformed;
    }
    let sum = total(b, first, c, other, less);
    if sum.byte.wrapping_add(1) < 2 {
        return Short::Stored(sum.byte, sum.low);
    }
    // Odd, which the full route takes for zero: no other low half is 0 here.
    if first == 0 {
        return Short::Beyond;
    }
    if other == 0 {
        return Short::Beyond;
    }
    Short::Exact(seventeen(sum.byte, sum.low))
}
