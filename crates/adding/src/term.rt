// A number as the full route of a sum takes it, read from its slot: its mantissa with its sign, re-stacked, and its exponent byte.
ghost use Rattle.std.specs.Prelude.{◌≡◌, ◌/◌, ◌^◌, ◌<◌, ◌⊎◌, IfSome};
ghost use Rattle.number.specs.Value.{signed as signed_of};
ghost use Rattle.slots.specs.Reach.{number_at};
ghost use Rattle.adding.specs.Sum.{flips};
ghost use Rattle.adding.specs.Term.{term_of};

// A zero has the exponent byte 1, which moves nothing: the compiler then knows that none is 0.
#[derive(Clone, Copy)]
pub(crate) struct Summand {
    pub x: i64,
    pub e: u32,
}

// The sign is the top bit of a word.
fn signed(word: u32, m: u32) -> i64
    ensures { result ≡ signed_of (word / 2 ^ 31) m }
{
    if word < 2147483648 {
        return m as i64;
    }
    0 - m as i64
}

// What is added to a word flips its sign, or leaves it. A malformed number has no term.
pub(crate) fn term(stack: &[u8], depth: usize, above: u8, flip: u32) -> Option<Summand>
    requires { (flip ≡ 0) ⊎ (flip ≡ 2 ^ 31) }
    ensures { (result ≡ term_of (flips flip) (number_at stack.now depth above)) × IfSome result (λ u. u.e < 256) }
{
    let b1 = places::b1_at(stack, depth, above);
    if b1 != 0 {
        let word = places::word_at(stack, depth, above);
        return Some(Summand {
            x: signed(word.wrapping_add(flip), word % 2147483648 + 2147483648),
            e: b1 as u32,
        });
    }
    let o = number::short_operand(places::word_at(stack, depth, above))?;
    if o.e == 0 {
        return Some(Summand { x: 0, e: 1 });
    }
    Some(Summand {
        x: signed(o.sign.wrapping_add(flip), o.m % 2147483648 + 2147483648),
        e: o.e,
    })
}
