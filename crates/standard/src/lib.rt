// Standard input, for programs that take all of it before they begin.
#![tactic(auto)]

ghost use Rattle.std.specs.Prelude.{◌<◌, length, take, IfOk};
ghost use Rattle.std.specs.Io.{ReadsAtMost};
ghost use Rattle.std.specs.Io.KnownBytes.{Consumes, IsAtEnd};

use std::io;
use std::io::Read;

// How many bytes were taken: as many as the buffer holds, and what comes after that is not read; fewer only where the input ends. Each turn takes a byte at
// least, so as many turns as the buffer has bytes are enough.
#[tactic(auto, using(crate::proofs::Taking::next_taken))]
pub fn take_all<R: Read>(input: &mut R, buffer: &mut [u8]) -> io::Result<usize>
    ensures bound { ReadsAtMost result buffer.new }
    ensures bytes { IfOk result (λ held. Consumes (R.remaining input.old) (R.remaining input.new) (take held buffer.new)) }
    ensures end { IfOk result (λ held. held < length buffer.new → IsAtEnd (R.remaining input.new)) }
{
    let mut held = 0;
    for _ in 0..buffer.len() {
        if held == buffer.len() {
            break;
        }
        match input.read(&mut buffer[held..])? {
            0 => break,
            n => held += n,
        }
    }
    Ok(held)
}
