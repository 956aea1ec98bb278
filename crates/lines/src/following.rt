// An input, followed line by line.
ghost use Rattle.std.specs.Prelude.{◌≡◌, Bool, true, false};
ghost use Rattle.std.specs.Io.KnownBytes.{IsAtEnd};

use crate::line::Line;
use std::io::Read;

// What a program does with the lines of its input.
pub trait Follower {
    // Whether more of the input is to be read.
    ghost going: { Self → Bool };

    // A whole line. One that has stopped stays so.
    fn follow_line(&mut self, line: &[u8])
        ensures { going self.old ≡ false → going self.new ≡ false };

    fn goes_on(&self) -> bool
        ensures { result ≡ going self.now };

    // The input can't be read to its end. What is held of a line is no line, and is given all the same.
    fn fail(&mut self)
        ensures { going self.new ≡ false };
}

fn follow_part<F: Follower>(line: &mut Line, follower: &mut F, part: &[u8])
    ensures { F.going follower.old ≡ false → F.going follower.new ≡ false }
{
    for byte in part {
        if line.take(*byte) {
            follower.follow_line(line.as_bytes());
            line.clear();
        }
    }
}

// Input comes in parts of any size, and the lines of a part are all given. A proved loop has to end, and nothing says that the input does: it counts up to a
// number that no run reaches, and an input that has more parts is not read to its end.
fn follow_parts<R: Read, F: Follower>(input: &mut R, line: &mut Line, follower: &mut F)
    ensures { F.going follower.new ≡ true → IsAtEnd (R.remaining input.new) }
{
    for _ in 0..u64::MAX {
        if !follower.goes_on() {
            return;
        }
        let mut part = [0u8; 4096];
        match input.read(&mut part) {
            Ok(0) => return,
            Ok(n) => follow_part(line, follower, &part[..n]),
            Err(_) => break,
        }
    }
    follower.fail();
}

// All of the input is read, unless the follower stops. A last line needs no line feed.
pub fn follow<R: Read, F: Follower>(input: &mut R, bytes: &mut [u8], follower: &mut F)
    ensures { F.going follower.new ≡ true → IsAtEnd (R.remaining input.new) }
{
    let mut line = Line::new(bytes);
    follow_parts(input, &mut line, follower);
    if !line.as_bytes().is_empty() {
        follower.follow_line(line.as_bytes());
    }
}
