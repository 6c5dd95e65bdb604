// The kinds of a script's records by their numbers (request 2026-03; orc, specs/Scripts). Constants and no enum: they are the bytes of the format, of which any of 256
// may come in.
pub const NOTHING: u8 = 0;

pub const CALL: u8 = 1;

pub const SEQUENCE: u8 = 2;

pub const PARALLEL: u8 = 3;

pub const WHERE: u8 = 4;
