// The tokens of two crews, counted class by class.
ghost use Rattle.std.specs.Prelude.{◌≡◌, ℕ, ◌<◌, ◌≤◌, length, sum, slice_index};
ghost use Rattle.crews.specs.Counting.{counted, Found};

use crate::Difference;
use crate::crewed::Crewed;
use net::MOST_PLACES;

impl Crewed<'_> {
    // The lowest class whose counts differ.
    pub(crate) fn difference(&self) -> Option<Difference>
        ensures { Found self.now result }
    {
        let lefts = self.class_sums(self.left);
        let rights = self.class_sums(self.right);
        (0..self.classes.len())
            .find(|&class| lefts[class] != rights[class])
            .map(|class| Difference {
                class,
                left: lefts[class],
                right: rights[class],
            })
    }

    // How many tokens of a crew each class holds.
    fn class_sums(&self, counts: &[u16]) -> [u16; MOST_PLACES]
        requires whole { length counts.now ≡ length self.now.classes.now }
        requires small { sum counts.now ≤ 4096 }
        ensures { (c : ℕ) → c < 128 → slice_index result c ≡ counted self.now counts.now c }
    {
        let mut sums = [0; MOST_PLACES];
        for (class, count) in self.classes.iter().zip(counts) {
            sums[usize::from(*class)] += *count;
        }
        sums
    }
}
