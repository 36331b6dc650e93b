// The numbers of the narrow edition, which the scope document describes.
use crate::limits::{POSITIVE_AT, WORD_BYTES};

// The variables are 0 to VARIABLES - 1.
pub const VARIABLES: u8 = 64;

// A set, and a rule line, which is two.
pub const SET_BYTES: usize = WORD_BYTES;

pub const LINE_BYTES: usize = 2 * SET_BYTES;

// A record: the columns that are numbers, and two sets.
pub const RECORD_BYTES: usize = POSITIVE_AT + 2 * SET_BYTES;

// The most records that the press takes.
pub const PRESS_RECORDS: usize = 1024;

// The most records of a pressed sheet: of n nodes there are n - 1 drops.
pub const PRESSED_RECORDS: usize = 2 * PRESS_RECORDS - 1;

// The most records that the replay takes.
pub const REPLAY_RECORDS: usize = 2047;
