// Truncation towards zero, and int, the whole part towards minus infinity. Both take any five bytes for a number.
#![tactic(auto)]

mod cutting;
mod whole;

pub use cutting::{is_taken_65536, truncate};
pub use whole::int;
