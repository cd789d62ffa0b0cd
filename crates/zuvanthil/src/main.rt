// Prints the report of the record file on standard input.
#![tactic(auto)]

use records::MOST_BYTES;
use report::{REPORT_SIZE, report};
use std::io::{Read, Write};

fn main(rt: HostRuntime) -> anyhow::Result<()> {
    print_report(&rt)
}

fn print_report(rt: &HostRuntime) -> anyhow::Result<()> {
    let mut bytes = Vec::new(rt.alloc());
    rt.stdin().take(MOST_BYTES as u64).read_to_end(&mut bytes)?;
    let mut text = [0; REPORT_SIZE];
    // there is room for every report
    let size = report(bytes.as_slice(), &mut text).unwrap();
    rt.stdout().write_all(&text[..size])?;
    Ok(())
}
