// A digit below 16, in upper case: `char::from_digit` gives lower case.
ghost use Rattle.std.specs.Prelude.{◌≡◌, ◌<◌};
ghost use Rattle.text.specs.Digits.{digit_of};

#[tactic(auto, unfolding(crate::specs::Digits::digit_of))]
pub(crate) fn digit_of(d: u8) -> u8
    requires { d < 16 }
    ensures { result ≡ digit_of d }
{
    if d < 10 { b'0' + d } else { b'A' + (d - 10) }
}
