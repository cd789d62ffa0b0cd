// Record files: a net and its two crews as a run of records of 8 bytes. The check, the net of a file, and a net written as a file.
#![tactic(auto)]

mod counts;
mod file_check;
mod file_net;
mod file_write;
mod index;
mod layout;
mod record;
mod targets;
mod tokens;

pub use counts::Counts;
pub use file_check::check;
pub use file_net::FileNet;
pub use file_write::write;
pub use layout::{MOST_BYTES, MOST_RECORDS, RECORD_SIZE};
pub use tokens::Tokens;
