// Lines out of a text that comes byte by byte.
#![tactic(auto)]

mod following;
mod line;

pub use following::{Follower, follow};
pub use line::Line;
