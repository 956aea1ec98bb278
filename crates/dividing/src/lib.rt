// Literal 5: divide. The lower operand is the first, and the result stands in its slot.
#![tactic(auto)]

mod quotient;

pub use quotient::divide;
