// A record of a file, got by its number, and what it says.
ghost use Rattle.std.specs.Prelude.{◌≡◌, ◌+◌, ◌*◌, ◌≤◌, true, length, take, is_some, IfSome};
ghost use Rattle.records.specs.Layout.{record_size, record_targets, record_at as nth_record};
ghost use Rattle.records.specs.Entry.{is_transition, moves, transition_form, reading};

use crate::layout::{PLACE_KIND, RECORD_SIZE, RECORD_TARGETS, TOKENS_KIND, TRANSITION_KIND};
use crate::targets::well_padded;
use crate::tokens::Tokens;
use net::MOST_LABEL;

// The bytes of record k.
pub(crate) fn record_at(bytes: &[u8], k: usize) -> &[u8]
    requires { record_size * k + record_size ≤ length bytes.now }
    ensures value { result.now ≡ nth_record bytes.now k }
    ensures size { length result.now ≡ record_size }
{
    &bytes[RECORD_SIZE * k..RECORD_SIZE * k + RECORD_SIZE]
}

// A transition: the place that it takes a token from, its label, and a target for each token that it puts down.
#[derive(Clone, Copy)]
pub(crate) struct Transition<'a> {
    pub(crate) place: usize,
    pub(crate) label: u8,
    pub(crate) targets: &'a [u8],
    ghost few: { length targets.now ≤ record_targets },
}

// What a record says, by its kind.
#[derive(Clone, Copy)]
pub(crate) enum Record<'a> {
    // a place is declared: its number
    Place(usize),
    Transition(Transition<'a>),
    Tokens(Tokens),
}

impl<'a> Record<'a> {
    ghost use Rattle.records.specs.Records.{entry_of};

    // What the bytes of a record say, or none where they break its form.
    // Kept: the bytes are a slice whose length each reader requires, since the project takes a record apart as a slice of 8 bytes.
    // Inlined, so that each reader does only what it asks: out of line the file check takes half as long again.
    #[inline(always)]
    pub(crate) fn read(bytes: &'a [u8]) -> Option<Record<'a>>
        requires { length bytes.now ≡ record_size }
        ensures { entry_of result ≡ reading bytes.now }
    {
        match bytes {
            [PLACE_KIND, number, 0, 0, 0, 0, 0, 0] => Some(Record::Place(usize::from(*number))),
            [TRANSITION_KIND, place, label, total, targets @ ..] => {
                Transition::new(*place, *label, *total, targets).map(Record::Transition)
            }
            [TOKENS_KIND, side @ 0..=1, place, 0, high, low, 0, 0] => {
                Some(Record::Tokens(Tokens {
                    side: usize::from(*side),
                    place: usize::from(*place),
                    count: usize::from(u16::from_be_bytes([*high, *low])),
                }))
            }
            _ => None,
        }
    }
}

impl<'a> Transition<'a> {
    // The transition of these bytes, or none where they break its form.
    fn new(place: u8, label: u8, total: u8, bytes: &'a [u8]) -> Option<Transition<'a>>
        requires { length bytes.now ≡ record_targets }
        ensures kind { is_some result ≡ transition_form label total bytes.now }
        ensures value { IfSome result (λ x. moves x.place x.label x.targets.now ≡ moves place label (take total bytes.now)) }
    {
        let total = usize::from(total);
        if label > MOST_LABEL || total > RECORD_TARGETS || !well_padded(total, bytes) {
            return None;
        }
        Some(Transition {
            place: usize::from(place),
            label,
            targets: &bytes[..total],
        })
    }

    // The transition of a record that says one, as is known of an admitted file's: nothing of its form is tried again.
    pub(crate) fn of_admitted(bytes: &'a [u8]) -> Transition<'a>
        requires size { length bytes.now ≡ record_size }
        requires kind { is_transition (reading bytes.now) ≡ true }
        ensures { reading bytes.now ≡ moves result.place result.label result.targets.now }
    {
        let [_, place, label, total, targets @ ..] = bytes else {
            unreachable!();
        };
        Transition {
            place: usize::from(*place),
            label: *label,
            targets: &targets[..usize::from(*total)],
        }
    }
}
