// Five-byte numbers of the Spectrum's calculator: their forms, and the parts that the arithmetic takes of them. Every function takes any parts.
#![tactic(auto)]

mod bytes;
mod form;
mod operand;
mod parts;
mod zeros;

pub use form::{Form, form_of};
pub use operand::{Magnitude, Operand, magnitude_of, operand_of, short_operand};
pub use parts::{
    CARRY, TOP_BIT, complement, full_word, halves_word, joined, low_half, mantissa,
    short_magnitude, short_word, swapped,
};
pub use zeros::leading_zeros;

// A number is five bytes b1 to b5. The word is b2 to b5, high byte first. It stands before b1 so that the compiler, which moves the struct as one
// machine word, has it in the low half and stores its bytes at once.
#[derive(Clone, Copy)]
pub struct Number {
    pub word: u32,
    pub b1: u8,
}

impl Number {
    pub const ZERO: Number = Number { word: 0, b1: 0 };
}
