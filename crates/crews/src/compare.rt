// Comparing the two crews of a bench.
ghost use Rattle.crews.specs.Compares.{Compared};

use crate::{Bench, Swap, Verdict};
use net::{Fault, Net, Refusal};

impl<N: Net> Bench<N> {
    // Says whether the crews are alike, class by class. Where they are, the swap list is written over the front of the caller's list.
    pub fn compare(&self, list: &mut [Swap]) -> Result<Verdict, Fault>
        ensures { Compared (N.Net.meaning self.now.net) self.now list.old list.new result }
    {
        if list.len() < 2 * self.net.places() {
            return Err(Fault::plain(Refusal::ShortList));
        }
        let table = self.class_table();
        let crewed = self.crewed(&table);
        match crewed.difference() {
            Some(d) => Ok(Verdict::Apart(d)),
            None => {
                let swaps = crewed.pair();
                let used = swaps.len();
                list[..used].copy_from_slice(&swaps);
                Ok(Verdict::Alike { used })
            }
        }
    }
}
