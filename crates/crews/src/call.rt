// The calls of the bench as values, and what they answer.
use crate::{Difference, SwapList};

// A call with its arguments. Any number may stand there: what the bench does not know, it refuses.
#[derive(Clone, Copy, PartialEq, Eq, Debug)]
pub enum Call {
    Put {
        side: usize,
        place: usize,
        count: usize,
    },
    Take {
        side: usize,
        place: usize,
        count: usize,
    },
    Fire {
        side: usize,
        transition: usize,
    },
    Follow {
        side: usize,
        transition: usize,
    },
    Count {
        side: usize,
        place: usize,
    },
    // a comparison into a list of `room` entries
    Compare {
        room: usize,
    },
}

// What an accepted call answers. A refused one answers the fault, and leaves the bench as it was.
#[derive(Clone, Copy, PartialEq, Eq, Debug)]
pub enum Answer {
    // there is nothing more to say
    Done,
    // how many tokens there are
    Tokens(u16),
    // the transition that answered across
    Followed(usize),
    // the crews are alike, and this is the swap list
    Alike(SwapList),
    // the crews are apart, and here they differ
    Apart(Difference),
}
