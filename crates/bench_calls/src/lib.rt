// What the timing program in bench/ links: the classes call on a listed net and on a ring, over and over.
#![tactic(auto)]

use arrayvec::ArrayVec;
use class_tests::Listed;
use classing::{Move, classes};
use net::{MOST_TRANSITIONS, Net, Ring};

// Bytes of a listed transition: its place, its label, its four targets.
const ROW: usize = 6;

// What is answered where the call was refused.
// Kept: a number, since the C interface answers one.
const REFUSED: usize = 1000;

// The transitions that stand in the bytes, one after the other, as far as there is room for them.
fn read(bytes: &[u8]) -> ArrayVec<Move, MOST_TRANSITIONS> {
    let mut rows = ArrayVec::new();
    for row in bytes.chunks_exact(ROW).take(MOST_TRANSITIONS) {
        if let [place, label, a, b, c, d] = *row
            && !rows.is_full()
        {
            rows.push(Move {
                place,
                label,
                targets: [a, b, c, d],
            });
        }
    }
    rows
}

// Calls classes `turns` times, and answers the rounds of the last call.
fn repeat<N: Net>(net: &N, list: &mut [u8], turns: usize) -> usize {
    let mut rounds = REFUSED;
    for _ in 0..turns {
        rounds = classes(net, list).unwrap_or(REFUSED);
    }
    rounds
}

#[unsafe(no_mangle)]
pub extern "C" fn bench_listed(
    places: usize,
    bytes: &[u8],
    list: &mut [u8],
    turns: usize,
) -> usize {
    let rows = read(bytes);
    repeat(&Listed::new(places, rows.as_slice()), list, turns)
}

#[unsafe(no_mangle)]
pub extern "C" fn bench_ring(size: usize, label: usize, list: &mut [u8], turns: usize) -> usize {
    repeat(&Ring::new(size, label), list, turns)
}
