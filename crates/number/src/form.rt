// The four forms of a number.
ghost use Rattle.std.specs.Prelude.{◌≡◌};
ghost use Rattle.number.specs.Number.{form_of};

use super::Number;

#[derive(Clone, Copy)]
pub enum Form {
    Full,
    Short,
    // Document 01's term: 00 FF 00 00, which the ROM makes by mistake.
    Odd,
    Malformed,
}

pub fn form_of(x: Number) -> Form
    ensures { result ≡ form_of x }
{
    if x.b1 != 0 {
        return Form::Full;
    }
    match x.word {
        0..=0x00FF_FFFF => Form::Short,
        0x0100_0000..=0xFEFF_FFFF => Form::Malformed,
        0xFF00_0000..=0xFF00_00FF => Form::Odd,
        _ => Form::Short,
    }
}
