// The net of a record file, read from the caller's bytes.
ghost use Rattle.std.specs.Prelude.{◌≡◌, ℕ, ◌<◌, ◌≤◌, false, take, Ok};
ghost use Rattle.net.specs.Limits.{most_transitions};
ghost use Rattle.net.specs.Lists.{zeros};
ghost use Rattle.records.specs.Check.{checked};
ghost use Rattle.records.specs.File.{sound, admitted_records, picked, net_of};
ghost use Rattle.records.specs.Crews.{crew_after, crew_of, token_record, Put};
ghost use Rattle.records.specs.FileLaws.{net_lawful};
ghost use Rattle.records.specs.AnswerLaws.{Tells};

use crate::counts::Counts;
use crate::file_check::check;
use crate::index::index_of;
use crate::layout::RECORD_SIZE;
use crate::record::{Transition, record_at};
use crate::targets::tokens_to;
use crate::tokens::Tokens;
use net::{MOST_TRANSITIONS, Net};

// The transitions are read on demand; what is kept beside the bytes is where their records stand.
#[derive(Clone, Copy)]
pub struct FileNet<'a> {
    bytes: &'a [u8],
    // how many records there are to go through
    size: usize,
    places: usize,
    // how many transitions there are, and the numbers of their records
    // Kept: the file net is copied and takes no memory, so that neither an `ArrayVec` nor a `Vec` can hold the numbers.
    count: usize,
    starts: [u16; MOST_TRANSITIONS],
    ghost whole: { size ≡ admitted_records bytes.now },
    ghost declared: { places ≡ (net_of bytes.now).places },
    ghost tied: { take count starts ≡ picked bytes.now },
    ghost few: { count ≤ most_transitions },
}

impl<'a> FileNet<'a> {
    // The net of a file, or an empty net where the check refuses the bytes, for whatever fault.
    pub fn new(bytes: &'a [u8]) -> FileNet<'a>
        ensures { result.bytes.now ≡ bytes.now }
    {
        match check(bytes) {
            Ok(seen) => FileNet::admitted(bytes, seen),
            Err(_) => FileNet::refused(bytes),
        }
    }

    // How many records there are to go through: all, or none where the check refuses the bytes.
    // The crews are empty before the first, and those of the file after the last.
    pub fn records(&self) -> usize
        ensures count { result ≡ admitted_records self.now.bytes.now }
        ensures start { (side : ℕ) → crew_after self.now.bytes.now side 0 ≡ zeros (net_of self.now.bytes.now).places }
        ensures finish { (side : ℕ) → crew_after self.now.bytes.now side result ≡ crew_of self.now.bytes.now side }
    {
        self.size
    }

    // The tokens of record k, where it is a token record of an admitted file.
    // Put on the crews one after the other, they make the crews of the file, and no crew is ever too large.
    pub fn token_record(&self, k: usize) -> Option<Tokens>
        ensures value { result ≡ token_record self.now.bytes.now k }
        ensures crews { k < admitted_records self.now.bytes.now → Put self.now.bytes.now k result }
    {
        if k >= self.size {
            return None;
        }
        Tokens::read(record_at(self.bytes, k))
    }

    // The empty net of bytes that the check refuses.
    fn refused(bytes: &'a [u8]) -> FileNet<'a>
        requires { sound bytes.now ≡ false }
        ensures { result.bytes.now ≡ bytes.now }
    {
        FileNet {
            bytes,
            size: 0,
            places: 0,
            count: 0,
            starts: [0; MOST_TRANSITIONS],
        }
    }

    // The net of bytes that it admits.
    fn admitted(bytes: &'a [u8], seen: Counts) -> FileNet<'a>
        requires { Ok seen ≡ checked bytes.now }
        ensures { result.bytes.now ≡ bytes.now }
    {
        FileNet {
            bytes,
            size: bytes.len() / RECORD_SIZE,
            places: seen.places,
            count: seen.transitions,
            starts: index_of(bytes),
        }
    }

    // Transition t, as its record says it, or none where there is no such transition.
    fn transition(&self, t: usize) -> Option<Transition<'_>>
        ensures { Tells self.now.bytes.now t result }
    {
        if t >= self.count {
            return None;
        }
        Some(Transition::of_admitted(record_at(self.bytes, usize::from(self.starts[t]))))
    }
}

impl<'a> Net for FileNet<'a> {
    ghost meaning = { λ x. net_of x.bytes.now };

    ghost lawful = { λ x. net_lawful x.bytes.now };

    fn places(&self) -> usize {
        self.places
    }

    #[tactic(auto, using(crate::specs::AnswerLaws::table_count))]
    fn transitions(&self) -> usize {
        self.count
    }

    fn place(&self, t: usize) -> usize {
        self.transition(t).map_or(0, |transition| transition.place)
    }

    fn label(&self, t: usize) -> u8 {
        self.transition(t).map_or(0, |transition| transition.label)
    }

    fn total(&self, t: usize) -> u8 {
        self.transition(t)
            .map_or(0, |transition| transition.targets.len() as u8)
    }

    fn tokens(&self, t: usize, p: usize) -> u8 {
        self.transition(t)
            .map_or(0, |transition| tokens_to(transition.targets, p))
    }
}
