// The bench: two crews of tokens on a net, and the calls that move them.
#![tactic(auto)]

mod bench;
mod call;
mod compare;
mod counting;
mod crew;
mod crewed;
mod follow;
mod moves;
mod pairing;
mod runs;
mod search;
mod side;
mod swap;
mod texts;

pub use bench::Bench;
pub use call::{Answer, Call};
pub use runs::{perform, replay};
pub use swap::{Difference, MOST_SWAPS, Swap, SwapList, Verdict};
