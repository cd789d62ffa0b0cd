// The targets of a transition: the place of each token that it puts down.
ghost use Rattle.std.specs.Prelude.{◌≡◌};
ghost use Rattle.net.specs.Meaning.{transition};
ghost use Rattle.net.specs.Limits.{most_total};
ghost use Rattle.net.specs.Targets.{spread, filled};

use crate::{MOST_TOTAL, Net};

// A transition puts down so many tokens at most.
pub const WIDTH: usize = MOST_TOTAL as usize;

// What stands in place of a target where there is no token.
// Kept: `Option<u8>` would be no plainer: what is sorted and compared are bytes, and a record file has the same byte there.
pub const NO_TARGET: u8 = 255;

// Where the tokens of transition t go, in rising order, and no targets behind them. The net is asked only until its total is found.
pub fn targets_of<N: Net>(net: &N, t: usize) -> [u8; WIDTH]
    ensures { result ≡ filled most_total (spread (transition (N.Net.meaning net.now) t) (N.Net.meaning net.now).places) }
{
    let mut targets = [NO_TARGET; WIDTH];
    let total = usize::from(net.total(t));
    let mut found: usize = 0;
    // Kept: a `for` over the places in place of this `while` was proved, with `fill` and without, and then the ring misses the bar that this loop meets.
    // A second loop, over the tokens of a place, was proved too: it becomes a call that fills memory, for each place that gets a token.
    let mut p: usize = 0;
    let mut left = net.tokens(t, 0);
    while found < total {
        if left > 0 {
            targets[found] = p as u8;
            found += 1;
            left -= 1;
        } else {
            p += 1;
            left = net.tokens(t, p);
        }
    }
    targets
}
