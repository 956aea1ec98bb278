// Literal 4: multiply. The lower operand is the first, and the result stands in its slot.
#![tactic(auto)]

mod product;

pub use product::multiply;
