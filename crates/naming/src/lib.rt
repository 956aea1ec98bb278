// The literals and the editions by their names.
#![tactic(auto)]

mod names;

pub use names::{edition_of, literal_of};
