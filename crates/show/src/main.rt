// Prints a recorded count from standard input, and where it differs what this machine does instead.
//
// A line a record: its number, counted from 0, the literal's name, and the report, the depth and the top's five bytes that are recorded, as trenailer
// calc prints them (- where the stack is empty). Of a push the bytes are those that were pushed; a literal that is in no row has its number.
//
//     0 push 0 1 00 00 0A 00 00
//     1 push 0 2 00 00 04 00 00
//     2 divide 0 1 82 20 00 00 01
//       this machine: 0 1 82 20 00 00 00
//     differ 2 top
//
// It ends at the first record that differs, with what this machine gives instead; the last line, and the status, are those of trenailer replay, whose
// --help says what a recording is.
#![tactic(auto)]

use std::io::Write;

fn main(rt: HostRuntime) {
    let mut stack = [0u8; 16000];
    // One byte more than a recording may have tells a longer one.
    let mut recording = [0u8; 64001];
    // Room for 4,000 records and the last two lines.
    let mut out = [0u8; 460000];
    let Ok(held) = standard::take_all(&mut rt.stdin(), &mut recording) else {
        let _ = rt.stderr().write_all(b"show: standard input cannot be read; nothing was shown\n");
        return;
    };
    let n = printing::print_show(&mut stack, &recording[..held], &mut out);
    if rt.stdout().write_all(text::first(&out, n)).is_err() {
        let _ = rt.stderr().write_all(
            b"show: standard output cannot be written; not all was shown\n",
        );
    }
}
