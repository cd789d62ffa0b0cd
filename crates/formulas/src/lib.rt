// The lines of a sheet: formulas that hold at some places of a net and not at others, each built on the lines before it.
#![tactic(auto)]

ghost use Rattle.formulas.specs.Theorems.{LinesHold, LinesRespect};

mod kind;
mod line;

pub use kind::{Kind, UnknownKind};
pub use line::{Line, MOST_LINES, MOST_PAIRS, Pair, first_unlawful};

// A line of a lawful sheet holds as its kind says, by the lines that it names.
pub fn lines_hold()
    ensures { LinesHold }
{}

// No line of a lawful sheet, whoever wrote it, separates two bisimilar places.
pub fn lines_respect()
    ensures { LinesRespect }
{}
