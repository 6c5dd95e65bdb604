// The kinds of record by their numbers (document 01, Records; cows, specs/Kinds). The bytes of the format: constants and no enum, since the byte of a record that
// nobody has checked yet may be none of them.
pub const NIL: u8 = 0;

pub const KILL: u8 = 1;

pub const INVOKE: u8 = 2;

pub const RECEIVE: u8 = 3;

pub const WAIT: u8 = 4;

pub const CHOICE: u8 = 5;

pub const PARALLEL: u8 = 6;

pub const PROTECTION: u8 = 7;

pub const DELIMITATION: u8 = 8;

pub const REPLICATION: u8 = 9;
