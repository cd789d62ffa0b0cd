// How a file is laid out: the size of a record, its bytes by name, and the limits of a file.
pub const RECORD_SIZE: usize = 8;

// Byte 0 of a record is its kind.
// Kept: numbers, since the patterns that take a record apart match its bytes by them; what a kind means is a case of `Record`.
pub(crate) const PLACE_KIND: u8 = 1;

pub(crate) const TRANSITION_KIND: u8 = 2;

pub(crate) const TOKENS_KIND: u8 = 3;

// The targets that a transition record has room for.
pub(crate) const RECORD_TARGETS: usize = 4;

pub const MOST_RECORDS: usize = 2048;

// The front of a file that is enough to judge it by: one record more than a file may have.
pub const MOST_BYTES: usize = RECORD_SIZE * (MOST_RECORDS + 1);
