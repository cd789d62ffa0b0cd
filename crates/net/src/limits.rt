// The limits that every net and every crew keeps.
pub const MOST_PLACES: usize = 128;

pub const MOST_TRANSITIONS: usize = 1024;

pub const MOST_LABEL: u8 = 63;

pub const MOST_TOTAL: u8 = 4;

pub const MOST_TOKENS: u16 = 4096;
