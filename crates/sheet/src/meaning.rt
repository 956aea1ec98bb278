// What a line of a sheet says.
use edition::Edition;
use number::Number;

#[derive(Clone, Copy)]
pub enum Step {
    // Blank, or a comment.
    Nothing,
    Push(Number),
    Literal(u8),
    // The edition of the literals from here on.
    Named(Edition),
}

// Why a line can't be read.
#[derive(Clone, Copy)]
pub enum Fault {
    LongLine,
    // A number alone: it may be meant to be pushed, or for a literal.
    BareNumber,
    // No whole number in range after `push`, or after `literal`.
    BadPush,
    BadLiteral,
    // Neither edition's name after `edition`.
    BadEdition,
    // Anything else.
    NoStep,
}
