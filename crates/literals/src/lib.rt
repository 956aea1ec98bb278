// The eleven literals: the table of what each takes and leaves, and a literal that is in no row. Their reports and what they do to a stack are
// defined in specs/.
#![tactic(auto)]

mod missing;
pub mod table;

pub use missing::unknown;
