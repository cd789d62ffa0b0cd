// Whether the moves of a place do what a line says.
ghost use Rattle.std.specs.Prelude.{◌≡◌, ◌↔◌, IsTrue};
ghost use Rattle.sheets.specs.Doing.{stands, tokens_where, targets_in, puts_like, MoveDoes, Answers};

use crate::tells::Tells;
use classing::{Move, Snapshot, WIDTH};
use formulas::Line;
use net::MOST_PLACES;

// Whether the target is a place at which the line holds.
fn stands_where<T: Tells>(truths: &T, line: u16, target: u8) -> bool
    ensures { result ≡ stands (T.Tells.tells truths.now) line target }
{
    let place = usize::from(target);
    place < MOST_PLACES && truths.tell(line, place)
}

// How many of the targets stand where the line holds.
pub(crate) fn tokens_where<T: Tells>(truths: &T, line: u16, targets: &[u8; WIDTH]) -> u8
    ensures { result ≡ tokens_where (T.Tells.tells truths.now) targets.now line }
{
    targets
        .iter()
        .filter(|&&target| stands_where(truths, line, target))
        .count() as u8
}

// How many targets there are.
// Kept: a chain of its own beside that of `tokens_where`, since a shared one would take the test as a closure, and its contract would have to say what that gives.
pub(crate) fn total_of(targets: &[u8; WIDTH]) -> u8
    ensures { result ≡ targets_in targets.now }
{
    targets
        .iter()
        .filter(|&&target| usize::from(target) < MOST_PLACES)
        .count() as u8
}

// Whether, for each pair that the line uses, as many of the targets stand where its line holds as it counts.
fn puts_like<T: Tells>(truths: &T, line: &Line, targets: &[u8; WIDTH]) -> bool
    ensures { result ≡ puts_like (T.Tells.tells truths.now) line.now targets.now }
{
    line.used_pairs().iter().all(|pair| tokens_where(truths, pair.line, targets) == pair.count)
}

// Whether the move does what the line says.
fn does<T: Tells>(truths: &T, line: &Line, this: &Move) -> bool
    ensures { IsTrue result ↔ (MoveDoes (T.Tells.tells truths.now) line.now this.now) }
{
    this.label == line.label
        && total_of(&this.targets) == line.total
        && puts_like(truths, line, &this.targets)
}

// Whether some move of the place q does what the line says.
pub(crate) fn answers<T: Tells>(snapshot: &Snapshot, truths: &T, line: &Line, q: usize) -> bool
    ensures { IsTrue result ↔ (Answers snapshot.now (T.Tells.tells truths.now) line.now q) }
{
    snapshot
        .moves_of(q)
        .iter()
        .any(|&u| does(truths, line, &snapshot.moves[usize::from(u)]))
}
