// A snapshot of a net: all that the refinement asks, taken once.
ghost use Rattle.std.specs.Prelude.{ℕ, ◌<◌, slice_index_or};
ghost use Rattle.net.specs.Meaning.{count_of, transition};
ghost use Rattle.classing.specs.Snapshots.{Keeps, NumbersOf, Sound, no_move};

use crate::groups::{Placed, STARTS};
use net::{MOST_PLACES, MOST_TRANSITIONS, NO_TARGET, Net, WIDTH, targets_of};

// A transition: its place, its label, and a target for each token that it puts down.
// The default one fills room that is not used.
#[derive(Clone, Copy, Default)]
pub struct Move {
    pub place: u8,
    pub label: u8,
    pub targets: [u8; WIDTH],
}

// The transitions of a net, and the numbers of those of each place.
// Kept: the count bounds the moves, the order and the profiles alike; in an `ArrayVec` of the moves it would be theirs alone, and no plainer.
#[derive(Drop)]
pub struct Snapshot {
    pub places: usize,
    pub count: usize,
    pub moves: [Move; MOST_TRANSITIONS],
    pub(crate) starts: [usize; STARTS],
    pub(crate) order: [u16; MOST_TRANSITIONS],
    ghost sound: { Sound places count moves starts order },
}

// Transition t, asked of the net.
fn ask<N: Net>(net: &N, t: usize) -> Move
    ensures { Keeps (N.Net.meaning net.now).places (transition (N.Net.meaning net.now) t) result }
{
    Move {
        place: net.place(t) as u8,
        label: net.label(t),
        targets: targets_of(net, t),
    }
}

// Writes the transitions of the net over the front of the moves. What stands behind them says nothing.
// Kept: they are written into moves of the caller, since moves that are handed back are copied once more.
fn ask_all<N: Net>(net: &N, moves: &mut [Move; MOST_TRANSITIONS])
    ensures { (t : ℕ) → t < count_of (N.Net.meaning net.now) → Keeps (N.Net.meaning net.now).places (transition (N.Net.meaning net.now) t) (slice_index_or moves.new t no_move) }
{
    for (t, this) in moves[..net.transitions()].iter_mut().enumerate() {
        *this = ask(net, t);
    }
}

impl Snapshot {
    ghost use Rattle.classing.specs.Shown.{Shows};

    // Asks the net once for all that it means.
    pub fn of<N: Net>(net: &N) -> Snapshot
        ensures { Shows (N.Net.meaning net.now) result }
    {
        let count = net.transitions();
        let mut moves = [Move {
            place: 0,
            label: 0,
            targets: [NO_TARGET; WIDTH],
        }; MOST_TRANSITIONS];
        ask_all(net, &mut moves);
        let placed = Placed {
            moves: &moves[..count],
        };
        let starts = placed.starts();
        let order = placed.order(&starts);
        Snapshot {
            places: net.places(),
            count,
            moves,
            starts,
            order,
        }
    }

    // The numbers of the transitions of a place in rising order, none where the net has no such place.
    pub fn moves_of(&self, place: usize) -> &[u16]
        ensures { NumbersOf self.now.count self.now.moves place result.now }
    {
        if place < MOST_PLACES {
            &self.order[self.starts[place]..self.starts[place + 1]]
        } else {
            &[]
        }
    }
}
