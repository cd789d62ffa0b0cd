// Prints the rounds and the classes of the net of a record file on standard input.
#![tactic(auto)]

use classing::classes;
use net::{MOST_PLACES, Net};
use records::{FileNet, MOST_BYTES, check};
use std::io::Read;

fn main(rt: HostRuntime) -> anyhow::Result<()> {
    run(&rt)
}

fn run(rt: &HostRuntime) -> anyhow::Result<()> {
    let mut bytes = Vec::new(rt.alloc());
    rt.stdin().take(MOST_BYTES as u64).read_to_end(&mut bytes)?;
    match check(bytes.as_slice()) {
        Ok(_) => print_classes(rt, bytes.as_slice()),
        Err(fault) => {
            println!(rt; "REFUSED {fault}")?;
            Ok(())
        }
    }
}

// A line with the rounds, and one for each place with its class, which is named by its lowest place.
fn print_classes(rt: &HostRuntime, bytes: &[u8]) -> anyhow::Result<()> {
    let net = FileNet::new(bytes);
    let mut table = [0; MOST_PLACES];
    // there is room for the classes of the most places that a net has
    let rounds = classes(&net, &mut table).unwrap();
    println!(rt; "rounds {rounds}")?;
    for (place, class) in table.iter().enumerate().take(net.places()) {
        println!(rt; "{place} {class}")?;
    }
    Ok(())
}
