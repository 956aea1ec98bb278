// Lines out of the input, which comes in parts of any size. What is kept between parts is the line so far.
use crate::cases;
use std::io;
use std::io::{Read, Write};
use text::Page;

#[derive(Drop)]
struct Answering<'a, W, E> {
    line: Page<'a>,
    // Kept between lines, so that its bytes are zeroed once.
    page: Page<'a>,
    out: W,
    err: E,
}

impl<'a, W: Write, E: Write> Answering<'a, W, E> {
    // A whole line. A stack of 17,000 bytes and the rest of its answer fit the page.
    // Not inlined: so large a frame is then made for a line, and not for each byte.
    #[inline(never)]
    fn answer(&mut self) -> io::Result<()> {
        let line = self.line.as_bytes();
        if let [b'\n'] | [b'#', ..] = line {
            return Ok(());
        }
        self.page.clear();
        let written = match cases::put_answer(&mut self.page, line) {
            Some(()) => self.out.write_all(self.page.as_bytes()),
            None => self.out.write_all(b"?\n"),
        };
        written.inspect_err(|_| {
            let _ = self
                .err
                .write_all(b"vectors: standard output cannot be written\n");
        })
    }

    // A line feed ends a line, but one that is too long has lost it.
    fn take(&mut self, byte: u8) -> io::Result<()> {
        self.line.put(byte);
        if byte == b'\n' {
            self.answer()?;
            self.line.clear();
        }
        Ok(())
    }

    // One read: how many bytes it got.
    fn take_part<R: Read>(&mut self, input: &mut R) -> io::Result<usize> {
        let mut part = [0u8; 4096];
        let n = input.read(&mut part).inspect_err(|_| {
            let _ = self
                .err
                .write_all(b"vectors: standard input cannot be read\n");
        })?;
        for byte in &part[..n] {
            self.take(*byte)?;
        }
        Ok(n)
    }
}

// Each line is answered, up to the end of the input; an `Err` where that can't be done, and standard error has said so. A last line needs no line feed, and
// an empty one has no answer. A proved loop has to end, and nothing says that the input does: it counts up to a number that no run reaches.
pub(crate) fn answer<R: Read + Drop, W: Write + Drop, E: Write + Drop>(
    mut input: R,
    out: W,
    err: E,
) -> io::Result<()> {
    let mut line = [0u8; 65536];
    let mut page = [0u8; 65536];
    let mut answering = Answering {
        line: Page::new(&mut line),
        page: Page::new(&mut page),
        out,
        err,
    };
    for _ in 0..u64::MAX {
        if answering.take_part(&mut input)? == 0 {
            return answering.take(b'\n');
        }
    }
    Ok(())
}
