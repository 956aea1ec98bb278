// What `show` prints of a recording.
#![tactic(auto)]

mod names;
mod pages;
mod records;

pub use pages::print_show;
