// Where the lines of a sheet hold, line after line.
ghost use Rattle.formulas.specs.Truths.{cell};

use crate::tells::Tells;
use formulas::MOST_LINES;
use net::MOST_PLACES;

// A row for each line, with whether it holds at each place.
#[derive(Drop)]
pub(crate) struct TruthTable {
    pub(crate) rows: [[bool; MOST_PLACES]; MOST_LINES],
}

impl Tells for TruthTable {
    ghost tells = { λ t. cell t.rows };

    fn tell(&self, line: u16, place: usize) -> bool {
        self.rows
            .get(usize::from(line))
            .is_some_and(|row| row[place])
    }
}
