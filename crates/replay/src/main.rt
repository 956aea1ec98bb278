// Replays a recorded count from standard input, and says whether this machine does the same.
//
// A recording is records of 16 bytes, a step each: the literal (0 for a push), the report, the depth after it in two bytes, low first, the top's five
// bytes after it (of a push, the five bytes that were pushed; zeros at depth 0), and seven zeros. It has at most 64,000 bytes. trenailer record makes one
// of a sheet, and trenailer show prints one.
//
// The steps are done in turn on an empty stack, and each is held to its record. The answer is one line:
//
//     agree 12          all 12 records agree
//     differ 3 depth    record 3, counted from 0, is the first that differs, and the depth is its first field that does; or report, or top
//     refused 8         it is no recording: over 64,000 bytes, a part of a record at its end, or a byte other than zero among the last seven
//
// A step that is refused, and recorded so, agrees. The status is 0, 1 or 2 by that line.
#![tactic(auto)]

use std::io::Write;

// As in `show`, written out: one function for both would take five arguments, three of them messages.
fn main(rt: HostRuntime) {
    let mut stack = [0u8; 16000];
    // One byte more than a recording may have tells a longer one.
    let mut recording = [0u8; 64001];
    let mut out = [0u8; 64];
    let Ok(held) = standard::take_all(&mut rt.stdin(), &mut recording) else {
        let _ = rt.stderr().write_all(
            b"replay: standard input cannot be read; nothing was replayed\n",
        );
        return;
    };
    let n = telling::print_replay(&mut stack, &recording[..held], &mut out);
    if rt.stdout().write_all(text::first(&out, n)).is_err() {
        let _ = rt
            .stderr()
            .write_all(b"replay: standard output cannot be written\n");
    }
}
