// The table of one crew.
ghost use Rattle.std.specs.Prelude.{◌≡◌, ◌+◌, ◌<◌, ◌≤◌, sum, slice_index};
ghost use Rattle.net.specs.Meaning.{transition as move_of, count_of, total_of};
ghost use Rattle.net.specs.Lists.{zeros};
ghost use Rattle.net.specs.Markings.{more, fewer, plus, fired};

use net::{MOST_PLACES, MOST_TOKENS, Net};

// The tokens of a crew on each place, and in all. No crew holds more than 4,096.
// Kept: by a rule of the project a table's counts are copied, changed and written back whole.
#[derive(Clone, Copy)]
pub(crate) struct Crew {
    pub(crate) counts: [u16; MOST_PLACES],
    total: u16,
    ghost summed: { total ≡ sum counts },
    ghost few: { total ≤ 4096 },
}

impl Crew {
    // A crew without a token.
    pub(crate) fn new() -> Crew
        ensures { result.counts ≡ zeros 128 }
    {
        Crew {
            counts: [0; MOST_PLACES],
            total: 0,
        }
    }

    // The tokens on a place.
    // Kept: that a place is below 128, and that the net has a transition, is asked of callers: a type for either asks the same at each of its literals, and clauses would name the net and the number by longer paths.
    pub(crate) fn at(&self, place: usize) -> u16
        requires { place < 128 }
        ensures { result ≡ slice_index self.now.counts place }
    {
        self.counts[place]
    }

    // How many tokens more the crew may hold.
    pub(crate) fn room(&self) -> usize
        ensures { result + sum self.now.counts ≡ 4096 }
    {
        usize::from(MOST_TOKENS - self.total)
    }

    // Puts tokens on a place.
    pub(crate) fn add(&mut self, place: usize, count: u16)
        requires known { place < 128 }
        requires fits { sum self.old.counts + count ≤ 4096 }
        ensures { self.new.counts ≡ more self.old.counts place count }
    {
        let mut counts = self.counts;
        counts[place] += count;
        self.counts = counts;
        self.total += count;
    }

    // Takes tokens from a place.
    pub(crate) fn remove(&mut self, place: usize, count: u16)
        requires known { place < 128 }
        requires there { count ≤ slice_index self.old.counts place }
        ensures { self.new.counts ≡ fewer self.old.counts place count }
    {
        let mut counts = self.counts;
        counts[place] -= count;
        self.counts = counts;
        self.total -= count;
    }

    // Fires a transition: a token is taken from its place, and then its tokens are put down.
    pub(crate) fn fire<N: Net>(&mut self, net: &N, transition: usize)
        requires known { transition < count_of (N.Net.meaning net.now) }
        requires there { 1 ≤ slice_index self.old.counts (move_of (N.Net.meaning net.now) transition).place }
        requires fits { sum (fired (N.Net.meaning net.now) transition self.old.counts) ≤ 4096 }
        ensures { self.new.counts ≡ fired (N.Net.meaning net.now) transition self.old.counts }
    {
        self.remove(net.place(transition), 1);
        self.put_down(net, transition);
    }

    // Puts down the tokens of a transition, until there is none left to put.
    fn put_down<N: Net>(&mut self, net: &N, transition: usize)
        requires known { transition < count_of (N.Net.meaning net.now) }
        requires fits { sum self.old.counts + total_of (move_of (N.Net.meaning net.now) transition) ≤ 4096 }
        ensures { self.new.counts ≡ plus self.old.counts (move_of (N.Net.meaning net.now) transition).puts }
    {
        let total = net.total(transition);
        let mut counts = self.counts;
        let mut left = total;
        // Kept: `iter_mut` was tried, and where its loop ends before the list, the proof of what it left did not close.
        for place in 0..MOST_PLACES {
            if left == 0 {
                break;
            }
            let tokens = net.tokens(transition, place);
            counts[place] += u16::from(tokens);
            left -= tokens;
        }
        self.counts = counts;
        self.total += u16::from(total);
    }
}
