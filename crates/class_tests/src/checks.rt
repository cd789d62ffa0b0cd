// Whether a list of moves makes a net.
ghost use Rattle.std.specs.Prelude.{◌≡◌};
ghost use Rattle.net.specs.Limits.{most_total};
ghost use Rattle.classing.specs.Targets.{times};
ghost use Rattle.class_tests.specs.Listing.{move_fits, moves_fit, target_fits, targets_fit};

use classing::{Move, NO_TARGET, WIDTH};
use net::MOST_LABEL;

// How many of the targets are x.
pub(crate) fn times_in(targets: &[u8; WIDTH], x: u8) -> u8
    ensures { result ≡ times most_total targets.now x }
{
    // Kept: `filter` and `count` in place of this loop were proved, and with them the random net of bench/ took 2.65 times the baseline, where this loop takes 1.4 to 1.7.
    let mut k: u8 = 0;
    for target in targets {
        if x == *target {
            k += 1;
        }
    }
    k
}

// Whether the target is one of the first n places, or none.
fn is_target(x: u8, n: usize) -> bool
    ensures { result ≡ target_fits n x }
{
    usize::from(x) < n || x == NO_TARGET
}

// Whether all targets are.
fn are_targets(targets: &[u8; WIDTH], n: usize) -> bool
    ensures { result ≡ targets_fit n targets.now }
{
    targets.iter().all(|target| is_target(*target, n))
}

// Whether the move names only the first n places and a label within the limit.
fn is_fit(row: &Move, n: usize) -> bool
    ensures { result ≡ move_fits n row.now }
{
    usize::from(row.place) < n && row.label <= MOST_LABEL && are_targets(&row.targets, n)
}

// Whether all moves do.
pub(crate) fn are_fit(rows: &[Move], n: usize) -> bool
    ensures { result ≡ moves_fit n rows.now }
{
    rows.iter().all(|row| is_fit(row, n))
}
