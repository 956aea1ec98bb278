// What a display cell shows.
#[derive(Clone, Copy)]
pub enum Cell {
    // Any byte, as C has it: a cell names whatever report it is given, also one that no call answers.
    Refused(u8),
    Blank,
    Odd,
    Value(f64),
}
