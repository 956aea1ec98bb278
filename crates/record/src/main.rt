// Follows a sheet of steps from standard input, one to a line, and writes a recording of them to standard output.
//
// A step is one of these. Blank lines are passed over, and what follows # is a comment.
//
//     84 70 00 00 00    a number of five bytes in hex: it is pushed
//     push N            a whole number from -65535 to 65535: it is pushed, as a short number
//     a name            that literal is done: exchange, delete, subtract, multiply, divide, add, negate, int, duplicate, truncate, re-stack
//     literal N         the literal of that number is done, from 1 to 255
//
// A recording is binary (trenailer record SHEET > FILE, then trenailer replay FILE): a record of 16 bytes for each step, with its literal (0 for a push), its report, the depth after it and the top's five
// bytes (of a push, the bytes that are pushed). A step that is refused is recorded as any other. There are 4,000 records at most.
//
// It is written when all of the sheet was read. At a line that can't be taken nothing is written, and standard error says what is wrong with it.
#![tactic(auto)]

mod entering;

fn main(rt: HostRuntime) {
    entering::record(rt.stdin(), rt.stdout(), rt.stderr());
}
