// The numbers of the wide edition, by the names that the narrow one has for its own.
use crate::limits::{POSITIVE_AT, WORD_BYTES};

// The variables are 0 to VARIABLES - 1.
pub const VARIABLES: u8 = 128;

// A set, and a rule line, which is two.
pub const SET_BYTES: usize = 2 * WORD_BYTES;

pub const LINE_BYTES: usize = 2 * SET_BYTES;

// A record: the columns that are numbers, and two sets.
pub const RECORD_BYTES: usize = POSITIVE_AT + 2 * SET_BYTES;

// The most records that the press takes.
pub const PRESS_RECORDS: usize = 512;

// The most records that the replay takes.
pub const REPLAY_RECORDS: usize = 1023;
