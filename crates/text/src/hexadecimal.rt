// Hexadecimal numbers.
ghost use Rattle.std.specs.Prelude.{◌≡◌, ◌<◌, SomeIff, min};
ghost use Rattle.text.specs.Digits.{hex_of, each_of, hexes_of, value_of};
ghost use Rattle.text.specs.Page.{Puts};

use crate::digits::digit_of;
use crate::page::Page;

impl Page<'_> {
    #[tactic(auto, unfolding(crate::specs::Put::puts_of))]
    pub fn put_hex(&mut self, byte: u8)
        ensures { Puts self.old self.new (hex_of byte) }
    {
        self.put(digit_of(byte / 16));
        self.put(digit_of(byte % 16));
    }

    // The bytes of a slice, with a text before each.
    #[tactic(auto, using(crate::proofs::Puts::each_take), unfolding(crate::specs::Put::puts_of, crate::specs::Digits::each_of))]
    pub fn put_each(&mut self, before: &[u8], bytes: &[u8])
        ensures { Puts self.old self.new (each_of before.now bytes.now) }
    {
        for byte in bytes {
            self.put_all(before);
            self.put_hex(*byte);
        }
    }

    // The bytes of a slice, with nothing between them.
    pub fn put_hexes(&mut self, bytes: &[u8])
        ensures { Puts self.old self.new (hexes_of bytes.now) }
    {
        self.put_each(b"", bytes);
    }
}

// The value of a digit of either case, below a radix of 16 at most.
#[tactic(auto, unfolding(crate::specs::Digits::value_of))]
pub fn digit(c: u8, radix: u32) -> Option<u32>
    ensures { SomeIff result (value_of c < min radix 16) (value_of c) }
{
    match (c as char).to_digit(16) {
        Some(value) if value < radix => Some(value),
        _ => None,
    }
}
