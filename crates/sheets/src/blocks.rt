// The blocks of a sheet in the making.
ghost use Rattle.std.specs.Prelude.{◌≡◌, ◌↔◌, ℕ, ◌<◌, ◌≤◌, IsTrue, length, replicate, slice_index};
ghost use Rattle.net.specs.Limits.{most_places};
ghost use Rattle.sheets.specs.Blocks.{in_block, SomeIn};

use crate::tells::Tells;
use net::MOST_PLACES;

// For each place the number of the line that holds exactly at its block.
// Kept: a table of its own beside the class table, which is a plain struct of its own by a rule of the project; what both do is one call of the library each.
#[derive(Clone, Copy)]
pub(crate) struct Blocks {
    pub(crate) lines: [u16; MOST_PLACES],
}

impl Tells for Blocks {
    ghost tells = { λ b. in_block b.lines };

    fn tell(&self, line: u16, place: usize) -> bool {
        line == self.lines[place]
    }
}

impl Blocks {
    // All places in the block of line 0.
    pub(crate) fn start() -> Blocks
        ensures { result.lines ≡ replicate most_places 0 }
    {
        Blocks {
            lines: [0; MOST_PLACES],
        }
    }

    // Whether one of the first n places is in the block of the line.
    pub(crate) fn has(&self, n: usize, line: u16) -> bool
        requires { n ≤ most_places }
        ensures { IsTrue result ↔ (SomeIn self.now.lines n line) }
    {
        self.lines[..n].contains(&line)
    }

    // Writes the line of each of the first n places into the list.
    pub(crate) fn write(&self, n: usize, list: &mut [u16])
        requires few { n ≤ most_places }
        requires room { n ≤ length list.old }
        ensures written { (p : ℕ) → p < n → slice_index list.new p ≡ slice_index self.now.lines p }
        ensures kept { (p : ℕ) → n ≤ p → slice_index list.new p ≡ slice_index list.old p }
    {
        list[..n].copy_from_slice(&self.lines[..n]);
    }
}
