// Why a line can't be taken.
use sheet::Fault;

#[derive(Clone, Copy)]
pub enum Why {
    Unread(Fault),
    // Recordings are of the shipped edition.
    Mended,
    // Literal 0: a record has 0 for a push.
    Zero,
    // A recording has at most 4,000 records.
    Full,
}
