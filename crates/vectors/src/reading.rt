// The fields of a case: `None` where a field can't be read.

// What stands before the first such byte of a text, and what after it.
pub(crate) fn split_once(text: &[u8], byte: u8) -> Option<(&[u8], &[u8])> {
    let place = text.iter().position(|b| *b == byte)?;
    Some((&text[..place], &text[place + 1..]))
}

// A number in decimal, of one digit at least and below 2^64. Not `parse`, which takes a plus sign.
pub(crate) fn number(digits: &[u8]) -> Option<usize> {
    if digits.is_empty() {
        return None;
    }
    let mut value: usize = 0;
    for digit in digits {
        value = value
            .checked_mul(10)?
            .checked_add(text::digit(*digit, 10)? as usize)?;
    }
    Some(value)
}

// The byte of two hexadecimal digits.
fn byte_of(high: u8, low: u8) -> Option<u8> {
    let high = text::digit(high, 16)?;
    let low = text::digit(low, 16)?;
    Some((16 * high + low) as u8)
}

// Pairs of hexadecimal digits, as the first bytes of a slice.
fn fill(bytes: &mut [u8], digits: &[u8]) -> Option<()> {
    let (pairs, rest) = digits.as_chunks::<2>();
    if !rest.is_empty() || bytes.len() < pairs.len() {
        return None;
    }
    for (byte, [high, low]) in bytes.iter_mut().zip(pairs) {
        *byte = byte_of(*high, *low)?;
    }
    Some(())
}

// Makes the other bytes of a slice what its first bytes are, again and again.
fn repeat(bytes: &mut [u8], period: usize) {
    for i in period..bytes.len() {
        bytes[i] = bytes[i - period];
    }
}

// LENGTH:HEX or LENGTH:HEX*, as the first bytes of a buffer of zeros.
pub(crate) fn bytes<'a>(field: &[u8], buffer: &'a mut [u8]) -> Option<&'a mut [u8]> {
    let (length, hex) = split_once(field, b':')?;
    let bytes = buffer.get_mut(..number(length)?)?;
    match hex {
        [] => {}
        [b'*'] => return None,
        [digits @ .., b'*'] => {
            fill(bytes, digits)?;
            repeat(bytes, digits.len() / 2);
        }
        digits => fill(bytes, digits)?,
    }
    Some(bytes)
}
