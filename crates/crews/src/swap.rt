// What a comparison of two crews answers.
ghost use Rattle.std.specs.Prelude.{◌≡◌, take};

use net::MOST_PLACES;

// A swap list has two entries at most for each place.
pub const MOST_SWAPS: usize = 2 * MOST_PLACES;

// One entry of a swap list: so many modules on a left place are replaced by as many on a right place.
#[derive(Clone, Copy, PartialEq, Eq, Debug, Default)]
pub struct Swap {
    pub left: u8,
    pub right: u8,
    pub count: u16,
}

// A swap list by value: its entries are the first `used`.
// Kept: an answer is Copy and takes no memory, and neither `ArrayVec` nor `Vec` is both.
#[derive(Clone, Copy, PartialEq, Eq, Debug)]
pub struct SwapList {
    pub entries: [Swap; MOST_SWAPS],
    pub used: usize,
}

impl SwapList {
    // The entries of the list.
    pub fn swaps(&self) -> &[Swap]
        ensures { result.now ≡ take self.now.used self.now.entries }
    {
        &self.entries[..self.used.min(MOST_SWAPS)]
    }
}

// A class that holds more tokens of one crew than of the other, with both counts.
#[derive(Clone, Copy, PartialEq, Eq, Debug)]
pub struct Difference {
    pub class: usize,
    pub left: u16,
    pub right: u16,
}

// The verdict on two crews.
// Kept: `Result<usize, Difference>` would call APART an error, and it is as good an answer as ALIKE; callers know the two by these names.
#[derive(Clone, Copy, PartialEq, Eq, Debug)]
pub enum Verdict {
    // they can replace each other, by a swap list of so many entries
    Alike { used: usize },
    // they cannot
    Apart(Difference),
}
