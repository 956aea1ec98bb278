// What moves numbers as they are: the three literals that do not look at a number's form, and a push. Five bytes that are read as a number and
// written again stay the same five bytes.
#![tactic(auto)]

mod literal;
mod pushing;

pub use literal::{delete, duplicate, exchange};
pub use pushing::{push, push_in_place};
