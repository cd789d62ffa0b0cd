// The search for a transition that answers another one.
ghost use Rattle.std.specs.Prelude.{◌≡◌, ℕ, ◌<◌, ◌&&◌, slice_index};
ghost use Rattle.net.specs.Meaning.{count_of};
ghost use Rattle.crews.specs.Following.{FitsBy, candidate};

use classing::{ClassTable, tokens_in};
use net::{MOST_PLACES, Net};

// The number of a transition that fits t, where there is one: same label, its place in the class of t's place and holding a token of the crew, and equally many tokens put into each class.
// Kept: that the net has t and u is asked in each contract: a struct of a net and a number could carry it, but clauses would then name both by longer paths, and say of two such structs that their net is the same.
pub(crate) fn answering<N: Net>(
    net: &N,
    table: &ClassTable,
    crew: &[u16; MOST_PLACES],
    t: usize,
) -> usize
    requires known { t < count_of (N.Net.meaning net.now) }
    requires named { (p : ℕ) → p < (N.Net.meaning net.now).places → slice_index table.now.classes p < (N.Net.meaning net.now).places }
    requires some { (u : ℕ) × FitsBy (N.Net.meaning net.now) table.now.classes crew.now t u }
    ensures { FitsBy (N.Net.meaning net.now) table.now.classes crew.now t result }
{
    // Kept: by a rule of the project this search is two nested loops, left by a label with the transition's number.
    'search: {
        'next: for u in 0..net.transitions() {
            if !may_answer(net, table, crew, t, u) {
                continue 'next;
            }
            for class in 0..net.places() {
                if tokens_in(net, table, u, class as u8) != tokens_in(net, table, t, class as u8) {
                    continue 'next;
                }
            }
            break 'search u;
        }
        unreachable!()
    }
}

// Whether u has the label of t, and a place in the class of t's place with a token of the crew.
fn may_answer<N: Net>(
    net: &N,
    table: &ClassTable,
    crew: &[u16; MOST_PLACES],
    t: usize,
    u: usize,
) -> bool
    requires t_known { t < count_of (N.Net.meaning net.now) }
    requires u_known { u < count_of (N.Net.meaning net.now) }
    ensures { result ≡ candidate (N.Net.meaning net.now) table.now.classes crew.now t u }
{
    let from = net.place(u);
    net.label(u) == net.label(t)
        && table.class_of(net.place(t)) == table.class_of(from)
        && crew[from] > 0
}
