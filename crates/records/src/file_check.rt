// The file check.
ghost use Rattle.std.specs.Prelude.{◌≡◌, ℕ, ◌≤◌, length, nat_le, IfOk};
ghost use Rattle.net.specs.Limits.{most_tokens};
ghost use Rattle.net.specs.Refusals.{Rising, at_spot as fault_at};
ghost use Rattle.records.specs.Layout.{record_size, most_records};
ghost use Rattle.records.specs.Entry.{declares, moves, holds, reading};
ghost use Rattle.records.specs.Check.{admit as admitted, checked};
ghost use Rattle.records.specs.Crews.{Measures};
ghost use Rattle.records.specs.Verdict.{Verdict, reasons_at};

use crate::counts::Counts;
use crate::layout::{MOST_RECORDS, RECORD_SIZE};
use crate::record::{Record, Transition, record_at};
use crate::targets::declared;
use crate::tokens::Tokens;
use net::{Fault, MOST_PLACES, MOST_TOKENS, MOST_TRANSITIONS, Refusal};

// A record that is tried: its number in the file, and what the records before it hold.
#[derive(Clone, Copy)]
struct Trial {
    spot: usize,
    seen: Counts,
    ghost left: { seen.left ≤ most_tokens },
    ghost right: { seen.right ≤ most_tokens },
}

impl Trial {
    // The fault of this record.
    fn fault(self, refusal: Refusal) -> Fault
        ensures { result ≡ fault_at refusal self.spot }
    {
        Fault::at(refusal, self.spot)
    }

    // Whether this is one record too many.
    fn is_over(self) -> bool
        ensures { result ≡ nat_le most_records self.spot }
    {
        self.spot >= MOST_RECORDS
    }

    // A place record: places are declared in order from 0.
    fn place(self, number: usize) -> Result<Counts, Fault>
        ensures { result ≡ admitted (declares number) self.spot self.seen }
    {
        if number != self.seen.places {
            return Err(self.fault(Refusal::UndeclaredPlace));
        }
        if self.seen.places >= MOST_PLACES || self.is_over() {
            return Err(self.fault(Refusal::OverLimit));
        }
        Ok(Counts {
            places: self.seen.places + 1,
            ..self.seen
        })
    }

    // A transition record: its places are declared before it.
    fn transition(self, transition: Transition) -> Result<Counts, Fault>
        ensures { result ≡ admitted (moves transition.entry.place transition.entry.label transition.entry.targets.now) self.spot self.seen }
    {
        if transition.place >= self.seen.places || !declared(transition.targets, self.seen.places) {
            return Err(self.fault(Refusal::UndeclaredPlace));
        }
        if self.seen.transitions >= MOST_TRANSITIONS || self.is_over() {
            return Err(self.fault(Refusal::OverLimit));
        }
        Ok(Counts {
            transitions: self.seen.transitions + 1,
            ..self.seen
        })
    }

    // A token record: its place is declared before it, and its crew has room for the tokens.
    fn tokens(self, tokens: Tokens) -> Result<Counts, Fault>
        ensures { result ≡ admitted (holds tokens.side tokens.place tokens.count) self.spot self.seen }
    {
        if tokens.place >= self.seen.places {
            return Err(self.fault(Refusal::UndeclaredPlace));
        }
        if self.is_over() {
            return Err(self.fault(Refusal::OverLimit));
        }
        // Kept: the side is a number, as in `Tokens`, which puts it into calls that take one.
        let crew = if tokens.side == 0 {
            self.seen.left
        } else {
            self.seen.right
        };
        if tokens.count > usize::from(MOST_TOKENS) - crew {
            return Err(self.fault(Refusal::TooManyTokens));
        }
        let crew = crew + tokens.count;
        if tokens.side == 0 {
            Ok(Counts {
                left: crew,
                ..self.seen
            })
        } else {
            Ok(Counts {
                right: crew,
                ..self.seen
            })
        }
    }

    // What the records hold with this one, whose bytes these are, or its fault.
    fn admit(self, bytes: &[u8]) -> Result<Counts, Fault>
        requires { length bytes.now ≡ record_size }
        ensures { result ≡ admitted (reading bytes.now) self.spot self.seen }
    {
        match Record::read(bytes).ok_or(self.fault(Refusal::MalformedRecord))? {
            Record::Place(number) => self.place(number),
            Record::Transition(transition) => self.transition(transition),
            Record::Tokens(tokens) => self.tokens(tokens),
        }
    }
}

// Judges a file: what its records hold, or the first fault.
// A length that is no whole number of records comes first; then each record is tried by all its reasons before the next one.
pub fn check(bytes: &[u8]) -> Result<Counts, Fault>
    ensures result { result ≡ checked bytes.now }
    ensures verdict { Verdict bytes.now result }
    ensures crews { IfOk result (Measures bytes.now) }
    ensures order { (k : ℕ) → Rising 1 (reasons_at bytes.now k) }
{
    if bytes.len() % RECORD_SIZE != 0 {
        return Err(Fault::at(Refusal::PartialRecord, bytes.len() / RECORD_SIZE));
    }
    let mut seen = Counts::default();
    // Kept: by a rule of the project a record is read by its number, which is the spot of its fault.
    for k in 0..bytes.len() / RECORD_SIZE {
        seen = Trial { spot: k, seen }.admit(record_at(bytes, k))?;
    }
    Ok(seen)
}
