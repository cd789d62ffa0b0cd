// Reading a script: one call a line.
use crate::stop::Stop;
use crews::{Call, MOST_SWAPS};
use std::io::Read;

// A line of a script that is no call.
#[derive(Clone, Copy, Debug)]
struct NotACall;

// Adds the calls of the script on standard input. Standard error tells each line that is no call.
pub(crate) fn add_script(rt: &HostRuntime, calls: &mut Vec<Call>) -> Result<(), Stop> {
    let heap = rt.alloc();
    let mut bytes = Vec::new(heap);
    rt.stdin().read_to_end(&mut bytes)?;
    let text = String::from_utf8_lossy(heap, bytes.as_slice())?;
    let mut outcome = Ok(());
    for (i, line) in text.as_str().lines().enumerate() {
        match read_line(line) {
            Ok(None) => {}
            Ok(Some(call)) => calls.push(call)?,
            Err(NotACall) => {
                let n = i.saturating_add(1);
                eprintln!(rt; "line {n}: not a call: {line}")?;
                outcome = Err(Stop::Told);
            }
        }
    }
    outcome
}

// The call that a line makes, or none where it is blank, or a remark that begins with #.
fn read_line(line: &str) -> Result<Option<Call>, NotACall> {
    let mut words = line.split_whitespace();
    match words.next() {
        None => Ok(None),
        Some(first) if first.starts_with('#') => Ok(None),
        Some(name) => {
            // no call has more than three numbers, and a fourth word behind the name tells that there are too many
            let mut numbers = [None; 4];
            // Kept: by index, since what `iter_mut` lends would hold words, which the borrow checker does not cover.
            for i in 0..numbers.len() {
                numbers[i] = words.next();
                if numbers[i].is_none() {
                    break;
                }
            }
            read_call(name, numbers).map(Some).ok_or(NotACall)
        }
    }
}

// A call by its name, with its numbers in the words after it and nothing more.
fn read_call(name: &str, numbers: [Option<&str>; 4]) -> Option<Call> {
    let call = match (name, numbers) {
        ("put", [Some(side), Some(place), Some(count), None]) => Call::Put {
            side: number(side)?,
            place: number(place)?,
            count: number(count)?,
        },
        ("take", [Some(side), Some(place), Some(count), None]) => Call::Take {
            side: number(side)?,
            place: number(place)?,
            count: number(count)?,
        },
        ("fire", [Some(side), Some(transition), None, _]) => Call::Fire {
            side: number(side)?,
            transition: number(transition)?,
        },
        ("follow", [Some(side), Some(transition), None, _]) => Call::Follow {
            side: number(side)?,
            transition: number(transition)?,
        },
        ("count", [Some(side), Some(place), None, _]) => Call::Count {
            side: number(side)?,
            place: number(place)?,
        },
        ("compare", [None, ..]) => Call::Compare { room: MOST_SWAPS },
        ("compare", [Some(room), None, ..]) => Call::Compare {
            room: number(room)?,
        },
        _ => return None,
    };
    Some(call)
}

// The number that a word of decimal digits writes, up to 2^64 - 1.
pub(crate) fn number(word: &str) -> Option<usize> {
    if word.starts_with('+') {
        return None;
    }
    word.parse().ok()
}
