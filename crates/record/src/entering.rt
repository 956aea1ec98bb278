// A sheet that is recorded: its steps are done on a stack, and each has its record. Where standard error can't be written either, there is nobody left to
// tell.
use lines::Follower;
use std::io::{Read, Write};

#[derive(Drop)]
struct Entering<E> {
    err: E,
    stack: [u8; 16000],
    depth: usize,
    recording: [u8; 64000],
    // The place after the last record: record_line takes the two as they are, and promises both.
    end: usize,
    // The next line's.
    number: u64,
    // False once a line can't be taken or the input can't be read: no step is done any more, and nothing is written.
    going: bool,
}

impl<E: Write> Follower for Entering<E> {
    ghost going = { λ s. s.going };

    // After a line that can't be taken, what was read with it is passed over.
    fn follow_line(&mut self, line: &[u8]) {
        if !self.going {
            return;
        }
        let mut complaint = [0u8; 256];
        match entry::record_line(
            &mut self.stack,
            self.depth,
            line,
            self.number,
            &mut self.recording,
            self.end,
            &mut complaint,
        ) {
            Ok(recorded) => {
                self.depth = recorded.depth;
                self.end = recorded.end;
            }
            Err(said) => {
                let _ = self.err.write_all(text::first(&complaint, said));
                self.going = false;
            }
        }
        self.number = self.number.wrapping_add(1);
    }

    fn goes_on(&self) -> bool {
        self.going
    }

    fn fail(&mut self) {
        let _ = self.err.write_all(
            b"record: standard input cannot be read; no recording was written\n",
        );
        self.going = false;
    }
}

// The recording is written when every line was taken.
pub(crate) fn record<R: Read + Drop, W: Write + Drop, E: Write + Drop>(
    mut input: R,
    mut out: W,
    err: E,
) {
    // What stands before a line's comment has at most 65,535 bytes, and a byte-order mark three: one more tells a longer line.
    let mut line = [0u8; 65539];
    let mut entering = Entering {
        err,
        stack: [0; 16000],
        depth: 0,
        recording: [0; 64000],
        end: 0,
        number: 1,
        going: true,
    };
    lines::follow(&mut input, &mut line, &mut entering);
    if entering.going
        && out
            .write_all(text::first(&entering.recording, entering.end))
            .is_err()
    {
        let _ = entering.err.write_all(
            b"record: standard output cannot be written; the recording is not whole\n",
        );
    }
}
