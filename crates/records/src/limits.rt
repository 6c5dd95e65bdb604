// The numbers that document 01 sets (cows, specs/Limits).
// Atoms: the values come first, then the variables, then the labels.
pub const FIRST_VARIABLE: u16 = 32768;

pub const FIRST_LABEL: u16 = 49152;

// The most records of a table, their bytes, the greatest depth, and the most bytes of a list of moves.
pub const MAX_RECORDS: usize = 2048;

pub const MAX_BYTES: usize = 32768;

pub const MAX_DEPTH: usize = 256;

pub const MAX_LIST_BYTES: usize = 60000;

// Room for the end of the term at each place, for that at the place behind the last record, and for one past it.
pub const ENDS: usize = 2050;
