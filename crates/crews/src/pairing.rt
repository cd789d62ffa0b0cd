// The greatest pairing of two crews, cell by cell.
ghost use Rattle.std.specs.Prelude.{◌≡◌, ℕ, ◌+◌, ◌*◌, ◌<◌, ◌≤◌, ◌++◌, min, if◌then◌else◌, slice_index};
ghost use Rattle.arrayvec.specs.ArrayVec.{array_vec_len};
ghost use Rattle.team.specs.Below.{tally};
ghost use Rattle.crews.specs.Counting.{places_of};
ghost use Rattle.crews.specs.Swaps.{row_swaps, swaps, swap_list};
ghost use Rattle.crews.specs.Pairs.{table_of};

use crate::crewed::Crewed;
use crate::{MOST_SWAPS, Swap};
use arrayvec::ArrayVec;
use net::MOST_PLACES;

impl Crewed<'_> {
    // The swap list of the two crews.
    // By left place and then right, as many tokens as are left are paired where the two places are of one class.
    pub(crate) fn pair(&self) -> ArrayVec<Swap, MOST_SWAPS>
        ensures listed { result.items ≡ swap_list (table_of self.now) (places_of self.now) }
        ensures short { array_vec_len result ≤ 2 * places_of self.now }
    {
        let mut taken = [0; MOST_PLACES];
        let mut list = ArrayVec::new();
        for p in 0..self.classes.len() {
            self.pair_row(p, &mut taken, &mut list);
        }
        list
    }

    // One row: the tokens on the left place p, paired from the lowest right place on. `taken` are the right tokens that the rows before have taken.
    fn pair_row(
        &self,
        p: usize,
        taken: &mut [u16; MOST_PLACES],
        list: &mut ArrayVec<Swap, MOST_SWAPS>,
    )
        requires row { p < places_of self.now }
        requires columns { (j : ℕ) → j < places_of self.now → slice_index taken.old j ≡ tally p (λ i. table_of self.now i j) }
        requires begun { list.old.items ≡ swaps (table_of self.now) (places_of self.now) p }
        ensures columns { (j : ℕ) → j < places_of self.now → slice_index taken.new j ≡ tally (p + 1) (λ i. table_of self.now i j) }
        ensures appended { list.new.items ≡ list.old.items ++ row_swaps (table_of self.now) p (places_of self.now) }
    {
        let mut have = self.left[p];
        // Kept: three lists go in step with the one that is written: what a `zip` with `iter_mut` writes, no contract knows, and by `enumerate` the others would be read by index all the same.
        for q in 0..self.classes.len() {
            let k = cell(
                self.classes[p] == self.classes[q],
                have,
                self.right[q] - taken[q],
            );
            have -= k;
            taken[q] += k;
            if k > 0 {
                list.push(Swap {
                    left: p as u8,
                    right: q as u8,
                    count: k,
                });
            }
        }
    }
}

// What a cell of two places takes: as much as its row and its column have left, if the two are of one class.
fn cell(alike: bool, row: u16, column: u16) -> u16
    ensures { result ≡ (if alike then min row column else 0) }
{
    if alike { row.min(column) } else { 0 }
}
