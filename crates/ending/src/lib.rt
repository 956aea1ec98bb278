// The ending of every operation: the doublings up to the top bit, the exponent's ways out, the rounding and the store.
// An answer is a number, or none at report 6, "number too big".
// Exponents are kept as e + 256, so that none is below 0; the rounding digits are a number, the next one lowest.
#![tactic(auto)]

mod closing;
mod doubling;

pub use closing::{BIAS, close};
pub use doubling::ending;
