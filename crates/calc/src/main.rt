// Follows a sheet of steps from standard input, one to a line, and answers each on standard output.
//
// A step is one of these. Blank lines are passed over, and what follows # is a comment.
//
//     84 70 00 00 00    a number of five bytes in hex: it is pushed
//     push N            a whole number from -65535 to 65535: it is pushed, as a short number
//     a name            that literal is done: exchange, delete, subtract, multiply, divide, add, negate, int, duplicate, truncate, re-stack
//     literal N         the literal of that number is done, from 0 to 255
//     edition NAME      shipped or mended: the ROM whose literals are done from here on, and nothing is answered; shipped where none is named
//
// An answer is the report, the depth and the top's five bytes, or - where the stack is empty. Report 0 is done; a step that is refused, with
// another, changes nothing: 2 too few numbers, 3 not a number (or odd, in the mended edition), 4 no room, 5 not one of the eleven literals, 6 number too big.
//
// A line that can't be read is answered by ? line N, where N is its number. Standard error says what is wrong with it, and no step is done
// from there on; at a terminal it may be typed again.
#![tactic(auto)]

use std::io::IsTerminal;

mod answering;

fn main(rt: HostRuntime) {
    let terminal = rt.stdin().is_terminal();
    answering::answer(rt.stdin(), rt.stdout(), rt.stderr(), terminal);
}
