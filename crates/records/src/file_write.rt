// A net written as a record file.
ghost use Rattle.std.specs.Prelude.{◌≡◌, take, MatchResult};
ghost use Rattle.net.specs.Meaning.{transition};
ghost use Rattle.records.specs.File.{net_of};
ghost use Rattle.records.specs.Write.{place_record, transition_record, record_of, write_answer, write_after};

use crate::layout::{PLACE_KIND, RECORD_SIZE, TRANSITION_KIND};
use net::{Fault, Net, Refusal, targets_of};

// The record that declares a place.
fn place_record(number: u8) -> [u8; RECORD_SIZE]
    ensures { result ≡ place_record number }
{
    [PLACE_KIND, number, 0, 0, 0, 0, 0, 0]
}

// The record of transition t.
fn transition_record<N: Net>(net: &N, t: usize) -> [u8; RECORD_SIZE]
    ensures { result ≡ transition_record (N.Net.meaning net.now).places (transition (N.Net.meaning net.now) t) }
{
    let place = net.place(t) as u8;
    let [first, second, third, fourth] = targets_of(net, t);
    [
        TRANSITION_KIND,
        place,
        net.label(t),
        net.total(t),
        first,
        second,
        third,
        fourth,
    ]
}

// Record k of a net's file: the places come first, then the transitions.
fn record_of<N: Net>(net: &N, k: usize) -> [u8; RECORD_SIZE]
    ensures { result ≡ record_of (N.Net.meaning net.now) k }
{
    let places = net.places();
    if k < places {
        place_record(k as u8)
    } else {
        transition_record(net, k - places)
    }
}

// Writes any net as place records and then transition records over the front of the caller's bytes, and answers how many bytes that took.
// The file net over those bytes has the same meaning as the net that was written. Bytes behind them stay as they were, and all of them where it is refused.
pub fn write<N: Net>(net: &N, out: &mut [u8]) -> Result<usize, Fault>
    ensures answer { result ≡ write_answer (N.Net.meaning net.now) out.old }
    ensures after { out.new ≡ write_after (N.Net.meaning net.now) out.old }
    ensures same { MatchResult result (λ n. net_of (take n out.new) ≡ N.Net.meaning net.now) (λ _. out.new ≡ out.old) }
{
    let count = net.places() + net.transitions();
    if out.len() < RECORD_SIZE * count {
        return Err(Fault::plain(Refusal::ShortList));
    }
    // Kept: the records are written by their numbers, since no contract knows what is written through `chunks_exact_mut`, which was tried.
    for k in 0..count {
        let bytes = record_of(net, k);
        out[RECORD_SIZE * k..RECORD_SIZE * k + RECORD_SIZE].copy_from_slice(&bytes);
    }
    Ok(RECORD_SIZE * count)
}
