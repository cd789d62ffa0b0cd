// Where the transition records of a file stand, so that a question about one costs no scan.
ghost use Rattle.std.specs.Prelude.{◌≡◌, true, length, take};
ghost use Rattle.records.specs.Layout.{record_count};
ghost use Rattle.records.specs.File.{sound, transition_records};

use crate::layout::{RECORD_SIZE, TRANSITION_KIND};
use crate::record::record_at;
use net::MOST_TRANSITIONS;

// The numbers of an admitted file's transition records, in order from the front.
pub(crate) fn index_of(bytes: &[u8]) -> [u16; MOST_TRANSITIONS]
    requires { sound bytes.now ≡ true }
    ensures { take (length (transition_records bytes.now (record_count bytes.now))) result ≡ transition_records bytes.now (record_count bytes.now) }
{
    let mut count = 0;
    let mut starts = [0u16; MOST_TRANSITIONS];
    // Kept: only some records are transitions, so that their numbers are written by a count of its own; what a `zip` with `iter_mut` writes, no contract knows.
    for k in 0..bytes.len() / RECORD_SIZE {
        // The record was admitted, so that its kind is enough.
        if record_at(bytes, k)[0] == TRANSITION_KIND {
            starts[count] = k as u16;
            count += 1;
        }
    }
    starts
}
