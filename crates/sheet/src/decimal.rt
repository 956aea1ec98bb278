// A whole number in decimal, up to a limit.
ghost use Rattle.std.specs.Prelude.{◌≡◌, ◌<◌, ◌≤◌, IfSome};
ghost use Rattle.sheet.specs.Decimal.{decimal_in};

// None where the text is no number, or the number is over the limit.
// Not `parse`, which takes a plus sign.
pub(crate) fn decimal_in(most: u32, text: &[u8]) -> Option<u32>
    requires { most < 65536 }
    ensures value { result ≡ decimal_in most text.now }
    ensures bound { IfSome result (λ v. v ≤ most) }
{
    if text.is_empty() {
        return None;
    }
    let mut value = 0;
    for c in text {
        value = 10 * value + text::digit(*c, 10)?;
        if most < value {
            return None;
        }
    }
    Some(value)
}
