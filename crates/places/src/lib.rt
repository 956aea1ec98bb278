// Where the bytes of a number stand: slot i is bytes 5i to 5i+4. A number is asked for by how many stand above it: none above the top, one
// above the lower operand. Where the stack lacks it, it reads as zero and nothing is written; a caller that has asked `lacks` pays nothing for that.
#![tactic(auto)]

ghost use Rattle.std.specs.Prelude.{◌≡◌, ◌+◌, ◌*◌, ◌≤◌, max, not, length};
ghost use Rattle.number.specs.Number.{number as number_of, b2, low, malformed, halves, stored_over, swapped_of};
ghost use Rattle.slots.specs.Slots.{put_in};
ghost use Rattle.slots.specs.SlotLaws.{four_in, put_four};
ghost use Rattle.slots.specs.Reach.{lacking, number_at, put_at, copied_of};

use number::Number;
use slots::{lacks, lacks_top};

// b2 to b5 the other way round, as the machine holds a word: the compiler reads them at once.
fn four_in(stack: &[u8], slot: usize) -> u32
    requires { 5 * slot + 5 ≤ length stack.now }
    ensures { result ≡ four_in stack.now slot }
{
    let at = 5 * slot;
    number::joined(stack[at + 4], stack[at + 3], stack[at + 2], stack[at + 1])
}

// Each of these asks for itself whether the number is there, and a caller that has asked pays nothing: one function over what is read would have to be told it by a
// closure, and the closure's contract.
pub fn b1_at(stack: &[u8], depth: usize, above: u8) -> u8
    ensures { result ≡ (number_at stack.now depth above).b1 }
{
    let nth = above as usize + 1;
    if lacks(stack, depth, nth) {
        return 0;
    }
    stack[5 * (depth - nth)]
}

pub fn b2_at(stack: &[u8], depth: usize, above: u8) -> u8
    ensures { result ≡ b2 (number_at stack.now depth above) }
{
    let nth = above as usize + 1;
    if lacks(stack, depth, nth) {
        return 0;
    }
    stack[5 * (depth - nth) + 1]
}

// By a sum: of an array for `from_le_bytes`, of four bytes or of eight, the compiler read single bytes.
fn half(b3: u8, b4: u8) -> u16
    ensures { result ≡ 256 * b4 + b3 }
{
    256 * b4 as u16 + b3 as u16
}

// A short number's low half, two bytes that the compiler reads at once.
pub fn low_at(stack: &[u8], depth: usize, above: u8) -> u16
    ensures { result ≡ low (number_at stack.now depth above) }
{
    let nth = above as usize + 1;
    if lacks(stack, depth, nth) {
        return 0;
    }
    let at = 5 * (depth - nth);
    half(stack[at + 2], stack[at + 3])
}

pub fn word_at(stack: &[u8], depth: usize, above: u8) -> u32
    ensures { result ≡ (number_at stack.now depth above).word }
{
    let nth = above as usize + 1;
    if lacks(stack, depth, nth) {
        return 0;
    }
    number::swapped(four_in(stack, depth - nth))
}

// By two bytes alone: a full number has no form to test, and of any other b2 decides.
pub fn malformed_at(stack: &[u8], depth: usize, above: u8) -> bool
    ensures { result ≡ malformed (number_at stack.now depth above) }
{
    let nth = above as usize + 1;
    if lacks(stack, depth, nth) {
        return false;
    }
    let at = 5 * (depth - nth);
    if stack[at] != 0 {
        return false;
    }
    let b2 = stack[at + 1];
    if b2 == 0 {
        return false;
    }
    b2 != 255
}

// Lowest byte first, in a function of its own: the compiler stores them at once. The slot is there for this function, the next and `four_in`: a type for it would
// borrow the stack once more to say so.
fn put_four(stack: &mut [u8], slot: usize, four: u32)
    requires { 5 * slot + 5 ≤ length stack.old }
    ensures { stack.new ≡ put_four stack.old slot four }
{
    let at = 5 * slot;
    stack[at + 1] = (four % 256) as u8;
    stack[at + 2] = (four / 256 % 256) as u8;
    stack[at + 3] = (four / 65536 % 256) as u8;
    stack[at + 4] = (four / 16777216) as u8;
}

fn put_in(stack: &mut [u8], slot: usize, n: Number)
    requires { 5 * slot + 5 ≤ length stack.old }
    ensures { stack.new ≡ put_in stack.old slot n }
{
    put_four(stack, slot, number::swapped(n.word));
    stack[5 * slot] = n.b1;
}

// b1 and the word stand apart: as one struct they are copied in a machine word and taken apart again, six instructions of int.
pub fn put_at(stack: &mut [u8], depth: usize, above: u8, b1: u8, word: u32)
    ensures { stack.new ≡ put_at stack.old depth above (number_of b1 word) }
{
    let nth = above as usize + 1;
    if lacks(stack, depth, nth) {
        return;
    }
    put_in(stack, depth - nth, Number { b1, word });
}

// A short number's sign byte and low half, lowest byte first: as in `put_four`, the compiler stores them at once. b1 and b5 stay.
pub fn put_halves_at(stack: &mut [u8], depth: usize, above: u8, byte: u8, h: u16)
    ensures { stack.new ≡ put_at stack.old depth above (stored_over (number_at stack.old depth above) (halves byte h)) }
{
    let nth = above as usize + 1;
    if lacks(stack, depth, nth) {
        return;
    }
    let at = 5 * (depth - nth);
    stack[at + 1] = byte;
    stack[at + 2] = (h % 256) as u8;
    stack[at + 3] = (h / 256) as u8;
}

// The same of the top alone, for a caller that has asked `lacks_top`: its b1, its b2 to b5 as they lie, and a number put there.
pub fn top_b1(stack: &[u8], depth: usize) -> u8
    ensures { result ≡ (number_at stack.now depth 0).b1 }
{
    if lacks_top(stack, depth) {
        return 0;
    }
    stack[5 * (depth - 1)]
}

pub fn top_four(stack: &[u8], depth: usize) -> u32
    ensures { swapped_of result ≡ (number_at stack.now depth 0).word }
{
    if lacks_top(stack, depth) {
        return 0;
    }
    four_in(stack, depth - 1)
}

pub fn put_top(stack: &mut [u8], depth: usize, b1: u8, word: u32)
    ensures { stack.new ≡ put_at stack.old depth 0 (number_of b1 word) }
{
    if lacks_top(stack, depth) {
        return;
    }
    put_in(stack, depth - 1, Number { b1, word });
}

// The top once more above itself, and whether there was one, and room: nothing is handed over where there was, and the report is asked for apart (`refusal`).
// That is one comparison too, of a bound that is computed once for a stack that is asked over and over.
pub fn copy_top(stack: &mut [u8], depth: usize) -> bool
    ensures { (not result ≡ lacking stack.old (depth + 1) 2) × (stack.new ≡ copied_of stack.old depth) }
{
    let len = stack.len();
    if 16000 < len {
        return false;
    }
    if len.max(5) / 5 - 1 <= depth.wrapping_sub(1) {
        return false;
    }
    let slot = depth - 1;
    let b1 = stack[5 * slot];
    let word = number::swapped(four_in(stack, slot));
    put_in(stack, depth, Number { b1, word });
    true
}
