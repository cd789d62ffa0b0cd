// The report of a record file, as text in the caller's bytes.
#![tactic(auto)]

mod file_bench;
mod file_report;
mod lines;
mod writing;

pub use file_report::{REPORT_SIZE, report};
