// What the word of a number is made of, taken apart and put together. A word is handed on by itself: the compiler then keeps it in a register.
ghost use Rattle.std.specs.Prelude.{◌≡◌, ◌+◌, ◌*◌, ◌/◌, ◌%◌};
ghost use Rattle.number.specs.Number.{number, word_of, swapped_of, low, complement_of, short_magnitude, mantissa, full_of, halves, short_of};

// The top bit of a word: the sign of a number, and of a mantissa the bit that goes without saying.
pub const TOP_BIT: u32 = 1 << 31;

// What carries out of a word.
pub const CARRY: u64 = 1 << 32;

// The mantissa of a full number, from its word.
pub fn mantissa(word: u32) -> u32
    ensures { result ≡ mantissa (number 0 word) }
{
    word % TOP_BIT + TOP_BIT
}

// The word of four bytes.
pub fn joined(b2: u8, b3: u8, b4: u8, b5: u8) -> u32
    ensures { result ≡ word_of b2 b3 b4 b5 }
{
    // Kept: of u32::from_be_bytes the compiler makes loads and shifts, 6 to 18 instructions more in a literal, and of this a load and a swap.
    b2 as u32 * 16777216 + b3 as u32 * 65536 + b4 as u32 * 256 + b5 as u32
}

// The word of its four bytes in the other order.
pub fn swapped(w: u32) -> u32
    ensures { result ≡ swapped_of w }
{
    w.swap_bytes()
}

// Two's complement on sixteen bits.
pub fn complement(h: u16) -> u16
    ensures { result ≡ complement_of h }
{
    h.wrapping_neg()
}

// A short number's low byte comes first, as the machine has it: with the word swapped, its low half stands as it is, and is one shift of what was loaded.
pub fn low_half(word: u32) -> u16
    ensures { result ≡ low (number 0 word) }
{
    (swapped(word) / 256 % 65536) as u16
}

pub fn short_magnitude(word: u32) -> u16
    ensures { result ≡ short_magnitude (number 0 word) }
{
    let h = low_half(word);
    if word < TOP_BIT {
        return h;
    }
    complement(h)
}

pub fn full_word(sign: u8, m: u64) -> u32
    ensures { result ≡ (full_of sign 0 m).word }
{
    (m % TOP_BIT as u64) as u32 + TOP_BIT * (sign % 2) as u32
}

pub fn halves_word(sign_byte: u8, h: u16) -> u32
    ensures { result ≡ (halves sign_byte h).word }
{
    swapped(sign_byte as u32 + h as u32 * 256)
}

pub fn short_word(sign: u8, v: u16) -> u32
    ensures { result ≡ (short_of sign v).word }
{
    if sign == 0 {
        return halves_word(0, v);
    }
    halves_word(255, complement(v))
}
