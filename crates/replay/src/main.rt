// Replays a script of calls on a bench over a net, and prints each call with its answer.
#![tactic(auto)]

mod files;
mod script;
mod source;
mod stop;
mod texts;

use crews::{Answer, Call, replay};
use files::{add_tokens, file_net, read_file};
use net::{Joined, Net, Ring, fit};
use script::add_script;
use source::Source;
use std::env;
use std::process::ExitCode;
use stop::Stop;
use texts::line;

fn main(rt: HostRuntime) -> anyhow::Result<ExitCode> {
    match run(&rt) {
        Ok(()) => Ok(ExitCode::SUCCESS),
        // a refusal is an answer, as a report is
        Err(Stop::Refused(fault)) => {
            println!(rt; "REFUSED {fault}")?;
            Ok(ExitCode::SUCCESS)
        }
        Err(Stop::Unnamed) => {
            rt.eprintln(
                "usage: replay FILE < SCRIPT, or replay FILE FILE < SCRIPT, or replay ring K LABEL < SCRIPT",
            )?;
            Ok(ExitCode::FAILURE)
        }
        Err(Stop::Told) => Ok(ExitCode::FAILURE),
        Err(Stop::Failed(error)) => Err(error),
    }
}

fn run(rt: &HostRuntime) -> Result<(), Stop> {
    let arguments: Vec<String> = env::args(rt)?.skip(1).collect(rt.alloc())?;
    match Source::named(arguments.as_slice()).ok_or(Stop::Unnamed)? {
        Source::Ring { size, label } => over_ring(rt, size, label),
        Source::File(path) => over_file(rt, path),
        Source::Joined(left, right) => over_files(rt, left, right),
    }
}

fn over_ring(rt: &HostRuntime, size: usize, label: usize) -> Result<(), Stop> {
    let ring = Ring::new(size, label);
    if ring.places() < size {
        rt.eprintln("the net is empty: a ring has 128 places at most, and a label up to 63")?;
    }
    over_net(rt, ring, Vec::new(rt.alloc()))
}

// The tokens of the file are put first.
fn over_file(rt: &HostRuntime, path: &str) -> Result<(), Stop> {
    let bytes = read_file(rt, path)?;
    let net = file_net(bytes.as_slice())?;
    let mut calls = Vec::new(rt.alloc());
    add_tokens(&net, 0, &mut calls)?;
    over_net(rt, net, calls)
}

// The tokens of both files are put first, the right one's on places moved up by the left net's.
fn over_files(rt: &HostRuntime, left: &str, right: &str) -> Result<(), Stop> {
    let left_bytes = match read_file(rt, left) {
        // the right one is tried all the same, so that each that cannot be read is told
        Err(Stop::Told) => return read_file(rt, right).and(Err(Stop::Told)),
        read => read?,
    };
    let right_bytes = read_file(rt, right)?;
    let left_net = file_net(left_bytes.as_slice())?;
    let right_net = file_net(right_bytes.as_slice())?;
    fit(&left_net, &right_net).map_err(Stop::Refused)?;
    let mut calls = Vec::new(rt.alloc());
    add_tokens(&left_net, 0, &mut calls)?;
    add_tokens(&right_net, left_net.places(), &mut calls)?;
    over_net(rt, Joined::new(left_net, right_net), calls)
}

// Performs the calls and then those of the script, if every line of it is one, and prints them with their answers.
fn over_net<N: Net + Drop>(rt: &HostRuntime, net: N, mut calls: Vec<Call>) -> Result<(), Stop> {
    add_script(rt, &mut calls)?;
    let heap = rt.alloc();
    let mut answers = vec![in heap; Ok(Answer::Done); calls.len()]?;
    // there is room for an answer to each call
    let _bench = replay(net, calls.as_slice(), answers.as_mut_slice()).unwrap();
    for (call, answer) in calls.as_slice().iter().zip(answers.as_slice().iter()) {
        rt.println(line(heap, *call, *answer)?)?;
    }
    Ok(())
}
