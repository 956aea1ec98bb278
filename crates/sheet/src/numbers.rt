// A number of five bytes in hexadecimal, two digits each, with blanks between them.
ghost use Rattle.std.specs.Prelude.{◌≡◌};
ghost use Rattle.sheet.specs.Numbers.{number_from};

use number::Number;
use words::is_blank;

pub(crate) fn number_of(text: &[u8]) -> Option<Number>
    ensures { result ≡ number_from 0 0 text.now }
{
    // Three steps a byte: its two digits, and a blank after them.
    let mut steps: u64 = 0;
    let mut value: u64 = 0;
    for c in text {
        match text::digit(*c, 16) {
            Some(digit) => {
                if steps % 3 == 2 {
                    return None;
                }
                steps += 1;
                value = 16 * (value % 68719476736) + digit as u64;
            }
            None => {
                if steps % 3 == 1 {
                    return None;
                }
                if !is_blank(*c) {
                    return None;
                }
                steps = 3 * ((steps + 1) / 3);
            }
        }
    }
    if steps != 14 {
        return None;
    }
    Some(Number {
        word: (value % 4294967296) as u32,
        b1: (value / 4294967296) as u8,
    })
}
