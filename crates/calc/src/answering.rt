// A sheet that is answered: its steps are done on a stack, and each line's answer is written. Where standard error can't be written either, there is nobody
// left to tell.
use edition::Edition;
use lines::Follower;
use std::io::{Read, Write};

#[derive(Drop)]
struct Answering<W, E> {
    out: W,
    err: E,
    terminal: bool,
    stack: [u8; 16000],
    depth: usize,
    // The edition that the sheet has named.
    edition: Edition,
    // The next line's: of one that could not be read, its own, since it is typed again.
    number: u64,
    // False once a line can't be read or an answer could not be written: no step is done any more.
    going: bool,
    // At a terminal, after a line that could not be read: it is to be typed again. This may be so where nothing goes on: its answer could not be written.
    owed: bool,
}

impl<W: Write, E: Write> Follower for Answering<W, E> {
    ghost going = { λ s. s.going };

    #[tactic(auto, unfolding(reply::specs::Following::line_left))]
    fn follow_line(&mut self, line: &[u8]) {
        let mut answer = [0u8; 64];
        let mut complaint = [0u8; 256];
        let done = reply::answer_line(
            self.edition,
            &mut self.stack,
            self.depth,
            self.going,
            line,
            self.number,
            self.terminal,
            &mut answer,
            &mut complaint,
        );
        self.depth = done.depth;
        self.edition = done.edition;
        self.going = done.going;
        let complained = 0 < done.err;
        self.owed = done.going && complained;
        if !complained {
            self.number = self.number.wrapping_add(1);
        }
        if self.out.write_all(text::first(&answer, done.out)).is_err() {
            let _ = self.err.write_all(
                b"calc: standard output cannot be written; nothing more was done\n",
            );
            self.going = false;
        }
        let _ = self.err.write_all(text::first(&complaint, done.err));
    }

    fn goes_on(&self) -> bool {
        self.going
    }

    fn fail(&mut self) {
        let _ = self.err.write_all(b"calc: standard input cannot be read\n");
        self.going = false;
    }
}

pub(crate) fn answer<R: Read + Drop, W: Write + Drop, E: Write + Drop>(
    mut input: R,
    out: W,
    err: E,
    terminal: bool,
) {
    // What stands before a line's comment has at most 65,535 bytes, and a byte-order mark three: one more tells a longer line.
    let mut line = [0u8; 65539];
    let mut answering = Answering {
        out,
        err,
        terminal,
        stack: [0; 16000],
        depth: 0,
        edition: edition::unnamed(),
        number: 1,
        going: true,
        owed: false,
    };
    lines::follow(&mut input, &mut line, &mut answering);
    if answering.owed {
        let _ = answering.err.write_all(
            b"calc: the last line could not be read, and was not typed again\n",
        );
    }
}
