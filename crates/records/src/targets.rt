// The target bytes of a transition record, however many there are.
ghost use Rattle.std.specs.Prelude.{◌≡◌, ◌<◌, ◌≤◌, length};
ghost use Rattle.records.specs.Entry.{rising, blank as all_blank, padded, below};
ghost use Rattle.records.specs.File.{tokens_to};

use net::NO_TARGET;

// Whether each target is at least the one before it.
fn rises(targets: &[u8]) -> bool
    ensures { result ≡ rising 0 targets.now }
{
    targets.is_sorted()
}

// Whether no byte is a target.
fn blank(rest: &[u8]) -> bool
    ensures { result ≡ all_blank rest.now }
{
    rest.iter().all(|t| *t == NO_TARGET)
}

// Whether the first `total` bytes are targets in rising order and the others are none.
pub(crate) fn well_padded(total: usize, bytes: &[u8]) -> bool
    requires { total ≤ length bytes.now }
    ensures { result ≡ padded total bytes.now }
{
    let (targets, rest) = bytes.split_at(total);
    rises(targets) && blank(rest)
}

// Whether each of the targets is one of the first `places` places.
pub(crate) fn declared(targets: &[u8], places: usize) -> bool
    ensures { result ≡ below places targets.now }
{
    targets.iter().all(|t| usize::from(*t) < places)
}

// How many of the targets are the place p.
pub(crate) fn tokens_to(targets: &[u8], p: usize) -> u8
    requires { length targets.now < 256 }
    ensures { result ≡ tokens_to targets.now p }
{
    // Kept: `filter` and `count` in place of this loop were proved, and with them a question about a file's transition takes 1.3 times as long.
    let mut tokens: u8 = 0;
    for t in targets {
        if usize::from(*t) == p {
            tokens += 1;
        }
    }
    tokens
}
