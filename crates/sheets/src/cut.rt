// Cutting blocks: a transition that some places of its block answer, and others do not, parts that block in two.
ghost use Rattle.std.specs.Prelude.{◌≡◌, ℕ, ◌+◌, ◌<◌, ◌≤◌, length, slice_index};
ghost use Rattle.net.specs.Limits.{most_places};
ghost use Rattle.formulas.specs.Lines.{most_lines};

use crate::blocks::Blocks;
use crate::does::answers;
use crate::lines::{conjunction, negation};
use classing::Snapshot;
use formulas::Line;
use std::array;

// A block of a snapshot's places, and the line that cuts it, which stands at the number `first`.
#[derive(Clone, Copy)]
pub(crate) struct Cut<'a> {
    pub(crate) snapshot: &'a Snapshot,
    pub(crate) blocks: &'a Blocks,
    pub(crate) block: u16,
    pub(crate) line: Line,
    pub(crate) first: u16,
    ghost few: { first ≤ most_lines },
}

impl Cut<'_> {
    ghost use Rattle.sheets.specs.Cuts.{MovedTo, FourMore};

    // Writes the four lines of the cut: its line, the negation, and each of the two with the block's line.
    pub(crate) fn write(&self, lines: &mut [Line])
        requires { self.now.first + 3 < length lines.old }
        ensures { FourMore self.now lines.old lines.new }
    {
        let k = usize::from(self.first);
        lines[k..k + 4].copy_from_slice(&[
            self.line,
            negation(self.first),
            conjunction(self.first, self.block),
            conjunction(self.first + 1, self.block),
        ]);
    }

    // The blocks once the cut is made: the places of its block that answer go to the third of its lines, the others to the fourth.
    pub(crate) fn part(&self) -> Blocks
        ensures within { (q : ℕ) → q < self.now.snapshot.now.places
            → MovedTo self.now q (slice_index result.lines q) }
        ensures beyond { (q : ℕ) → self.now.snapshot.now.places ≤ q → q < most_places
            → slice_index result.lines q ≡ slice_index self.now.blocks.now.lines q }
    {
        Blocks {
            lines: array::from_fn(|q| self.line_of(q)),
        }
    }

    // The line of the block that place q is in once the cut is made.
    fn line_of(&self, q: usize) -> u16
        requires { q < most_places }
        ensures within { q < self.now.snapshot.now.places → MovedTo self.now q result }
        ensures beyond { self.now.snapshot.now.places ≤ q → result ≡ slice_index self.now.blocks.now.lines q }
    {
        let line = self.blocks.lines[q];
        if q >= self.snapshot.places || line != self.block {
            line
        } else if answers(self.snapshot, self.blocks, &self.line, q) {
            self.first + 2
        } else {
            self.first + 3
        }
    }
}
