// The table of the eleven literals, a row each: the literal, how many numbers it takes, how many it leaves. The checks read it, and the compiler
// folds the reads. A literal is any byte, and a row three constants: as a constant struct or an array it made two to four times as much to prove of whoever reads it.
pub const EXCHANGE: u8 = 1;

pub const EXCHANGE_TAKES: usize = 2;

pub const EXCHANGE_LEAVES: usize = 2;

pub const DELETE: u8 = 2;

pub const DELETE_TAKES: usize = 1;

pub const DELETE_LEAVES: usize = 0;

pub const SUBTRACT: u8 = 3;

pub const SUBTRACT_TAKES: usize = 2;

pub const SUBTRACT_LEAVES: usize = 1;

pub const MULTIPLY: u8 = 4;

pub const MULTIPLY_TAKES: usize = 2;

pub const MULTIPLY_LEAVES: usize = 1;

pub const DIVIDE: u8 = 5;

pub const DIVIDE_TAKES: usize = 2;

pub const DIVIDE_LEAVES: usize = 1;

pub const ADD: u8 = 15;

pub const ADD_TAKES: usize = 2;

pub const ADD_LEAVES: usize = 1;

pub const NEGATE: u8 = 27;

pub const NEGATE_TAKES: usize = 1;

pub const NEGATE_LEAVES: usize = 1;

pub const INT: u8 = 39;

pub const INT_TAKES: usize = 1;

pub const INT_LEAVES: usize = 1;

pub const DUPLICATE: u8 = 49;

pub const DUPLICATE_TAKES: usize = 1;

pub const DUPLICATE_LEAVES: usize = 2;

pub const TRUNCATE: u8 = 58;

pub const TRUNCATE_TAKES: usize = 1;

pub const TRUNCATE_LEAVES: usize = 1;

pub const RE_STACK: u8 = 61;

pub const RE_STACK_TAKES: usize = 1;

pub const RE_STACK_LEAVES: usize = 1;
