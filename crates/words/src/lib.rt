// The words of a line: what stands before its comment, the blanks around it, and what follows a word.
#![tactic(auto)]

mod beginning;
mod blanks;
mod following;

pub use beginning::begins;
pub use blanks::{is_blank, told, trimmed};
pub use following::after;
