// Numbers as text, put on a page: what finds no room is left out.
#![tactic(auto)]

mod decimal;
mod digits;
mod hexadecimal;
mod page;

pub use hexadecimal::digit;
pub use page::{Page, first};
