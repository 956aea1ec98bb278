// What a line says, by what stands before its comment.
ghost use Rattle.std.specs.Prelude.{◌≡◌};
ghost use Rattle.sheet.specs.Line.{short_pushed, pushed, numbered, named, bare, plain, said, line_of};

use crate::decimal::decimal_in;
use crate::meaning::{Fault, Step};
use crate::numbers::number_of;
use number::Number;
use words::after;

// Zero has no sign.
#[tactic(auto, unfolding(crate::specs::Line::short_pushed))]
fn short_pushed(sign: u8, digits: &[u8]) -> Result<Step, Fault>
    ensures { result ≡ short_pushed sign digits.now }
{
    let magnitude = decimal_in(65535, digits).ok_or(Fault::BadPush)? as u16;
    let sign = if magnitude == 0 { 0 } else { sign };
    Ok(Step::Push(Number {
        word: number::short_word(sign, magnitude),
        b1: 0,
    }))
}

#[tactic(auto, using(crate::proofs::LineLaws::signed), unfolding(crate::specs::Line::pushed))]
fn pushed(text: &[u8]) -> Result<Step, Fault>
    ensures { result ≡ pushed text.now }
{
    match text.strip_prefix(b"-") {
        Some(digits) => short_pushed(1, digits),
        None => short_pushed(0, text),
    }
}

#[tactic(auto, unfolding(crate::specs::Line::numbered))]
fn numbered(text: &[u8]) -> Result<Step, Fault>
    ensures { result ≡ numbered text.now }
{
    let literal = decimal_in(255, text).ok_or(Fault::BadLiteral)?;
    Ok(Step::Literal(literal as u8))
}

#[tactic(auto, unfolding(crate::specs::Line::named))]
fn named(text: &[u8]) -> Result<Step, Fault>
    ensures { result ≡ named text.now }
{
    let edition = naming::edition_of(text).ok_or(Fault::BadEdition)?;
    Ok(Step::Named(edition))
}

// Digits and + , - . / alone.
#[tactic(auto, unfolding(crate::specs::Line::bare))]
fn is_bare(text: &[u8]) -> bool
    ensures { result ≡ bare text.now }
{
    text.iter().all(|c| matches!(*c, b'+'..=b'9'))
}

// One word, or five bytes.
#[tactic(auto, unfolding(crate::specs::Line::plain))]
fn plain(text: &[u8]) -> Result<Step, Fault>
    ensures { result ≡ plain text.now }
{
    if let Some(literal) = naming::literal_of(text) {
        return Ok(Step::Literal(literal));
    }
    if is_bare(text) {
        return Err(Fault::BareNumber);
    }
    let number = number_of(text).ok_or(Fault::NoStep)?;
    Ok(Step::Push(number))
}

#[tactic(auto, unfolding(crate::specs::Line::said))]
fn said(text: &[u8]) -> Result<Step, Fault>
    ensures { result ≡ said text.now }
{
    if text.is_empty() {
        return Ok(Step::Nothing);
    }
    if let Some(to_push) = after(text, b"push") {
        return pushed(to_push);
    }
    if let Some(literal) = after(text, b"literal") {
        return numbered(literal);
    }
    if let Some(edition) = after(text, b"edition") {
        return named(edition);
    }
    plain(text)
}

#[tactic(auto, unfolding(crate::specs::Line::line_of))]
pub fn line_of(told: &[u8]) -> Result<Step, Fault>
    ensures { result ≡ line_of told.now }
{
    if 65535 < told.len() {
        return Err(Fault::LongLine);
    }
    said(words::trimmed(told))
}
