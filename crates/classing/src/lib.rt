// The classes of a net's places: which places are bisimilar, and how many tokens a transition puts into a class.
#![tactic(auto)]

ghost use Rattle.classing.specs.Answers.{ClassesAnswer, TokensIn};

use net::{Fault, Net, Refusal};

mod groups;
mod profile;
mod refine;
mod snapshot;
mod table;

pub use net::{NO_TARGET, WIDTH};
pub use refine::Partition;
pub use snapshot::{Move, Snapshot};
pub use table::ClassTable;

// Writes the class of each place, its lowest bisimilar place, into the list, and answers the rounds.
pub fn classes<N: Net>(net: &N, list: &mut [u8]) -> Result<usize, Fault>
    ensures { ClassesAnswer (N.Net.meaning net.now) list.old list.new result }
{
    let n = net.places();
    if list.len() < n {
        return Err(Fault::plain(Refusal::ShortList));
    }
    let partition = Partition::of(net);
    partition.table.write(n, list);
    Ok(partition.rounds)
}

// How many tokens transition t puts on the places whose entry in the table is `class`.
pub fn tokens_in<N: Net>(net: &N, table: &ClassTable, t: usize, class: u8) -> usize
    ensures { TokensIn (N.Net.meaning net.now) table.now.classes t class result }
{
    let mut sum: usize = 0;
    // Kept: a chain by `filter`, `map` and `sum` was tried, and neither the bound that `sum` asks for nor the result was proved.
    for p in 0..net.places() {
        if table.class_of(p) == class {
            sum += usize::from(net.tokens(t, p));
        }
    }
    sum
}
