// The line that says what a move does to the blocks.
ghost use Rattle.std.specs.Prelude.{◌↔◌, IsTrue};
ghost use Rattle.net.specs.Limits.{most_total};
ghost use Rattle.sheets.specs.Drawing.{Draws, Names};

use crate::blocks::Blocks;
use crate::does::{tokens_where, total_of};
use classing::Move;
use formulas::{Kind, Line, MOST_PAIRS, Pair};

// A modal line with the label and the total of the move, and a pair for each block that gets tokens, with their number.
pub(crate) fn draw(this: &Move, blocks: &Blocks) -> Line
    ensures { Draws blocks.now.lines this.now most_total result }
{
    let mut line = Line {
        kind: Kind::Modal.number(),
        label: this.label,
        total: total_of(&this.targets),
        used: 0,
        pairs: [Pair::default(); MOST_PAIRS],
    };
    for &target in &this.targets {
        let Some(&block) = blocks.lines.get(usize::from(target)) else {
            continue;
        };
        if names(&line, block) {
            continue;
        }
        // Kept: by the format of a line its pairs are counted in a field of it.
        line.pairs[usize::from(line.used)] = Pair {
            line: block,
            count: tokens_where(blocks, block, &this.targets),
        };
        line.used += 1;
    }
    line
}

// Whether a used pair of the line names the line a.
fn names(line: &Line, a: u16) -> bool
    ensures { IsTrue result ↔ (Names line.now a) }
{
    line.used_pairs().iter().any(|pair| pair.line == a)
}
