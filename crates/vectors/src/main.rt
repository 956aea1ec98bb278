// Does each case of standard input, one to a line, and writes all that can be seen of its answer on a line of standard output.
//
// A case is KIND and DEPTH, STACK, BYTES: `o` operates with the one literal of BYTES, `p` pushes BYTES, `r` runs its literals, `c` does
// nothing but show the stack as it is, with the one report of BYTES, and `y` replays BYTES, a recording, whatever DEPTH is. `z` asks for the leading zeros of a T, the four bytes of BYTES, high byte first. `O` and `R` operate and run in the edition whose number is the first of BYTES. An answer is REPORT
// POSITION DEPTH STACK VIEW CELL; the position is a run's, of `z` the number of zeros, and else 0. Of a replay it is FIELD REPORT COUNT DEPTH STACK VIEW CELL, with 1 the
// report, 2 the depth, 3 the top for the field that differs, and else 0. A line that is no case is answered by `?`, and so is one of more than 65,536 bytes with its line feed, whatever it
// holds; an empty one and a comment (`#`), which may have any length, have no answer.
//
// Bytes are LENGTH:HEX, where zeros at the end may be left out: `5:8240` is 82 40 00 00 00; or LENGTH:HEX*, where the bytes given, one at
// least, are repeated up to the length: `5:8240*` is 82 40 82 40 82. A stack has up to 17,000 bytes, a list up to 61,000 and a recording up to 65,000. A cell is `R`
// and a report, `B0` blank, `O0` odd, or `V` and a double's bits as a number.
//
// Where an answer cannot be written, or the input not read, standard error says so and nothing more is done.
#![tactic(auto)]

mod answers;
mod cases;
mod lines;
mod reading;

fn main(rt: HostRuntime) {
    // Where it stops early, standard error has said why.
    let _ = lines::answer(rt.stdin(), rt.stdout(), rt.stderr());
}
