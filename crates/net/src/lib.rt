// Nets: what a net means, the questions that every kind of net answers, and the kinds that are made of numbers or of other nets.
#![tactic(auto)]

ghost use Rattle.std.specs.Prelude.{◌≡◌};
ghost use Rattle.net.specs.Meaning.{Meaning, transition, count_of, tokens_on, total_of};
ghost use Rattle.net.specs.Limits.{Lawful};

mod joined;
mod limits;
mod refusal;
mod ring;
mod targets;

pub use joined::{Joined, fit};
pub use limits::{MOST_LABEL, MOST_PLACES, MOST_TOKENS, MOST_TOTAL, MOST_TRANSITIONS};
pub use refusal::{Fault, Refusal};
pub use ring::Ring;
pub use targets::{NO_TARGET, WIDTH, targets_of};

// A kind of net. Whoever brings one says what its values mean, shows that they keep the limits, and answers six questions by that meaning.
// A number out of range is answered by 0.
pub trait Net {
    ghost meaning: { Self → Meaning };

    ghost lawful: { (x : Self) → Lawful (meaning x) };

    // How many places there are.
    fn places(&self) -> usize
        ensures { result ≡ (meaning self.now).places };

    // How many transitions there are.
    fn transitions(&self) -> usize
        ensures { result ≡ count_of (meaning self.now) };

    // The place that transition t takes a token from.
    fn place(&self, t: usize) -> usize
        ensures { result ≡ (transition (meaning self.now) t).place };

    // The label of transition t.
    fn label(&self, t: usize) -> u8
        ensures { result ≡ (transition (meaning self.now) t).label };

    // How many tokens transition t puts down in all.
    fn total(&self, t: usize) -> u8
        ensures { result ≡ total_of (transition (meaning self.now) t) };

    // How many tokens transition t puts on place p.
    fn tokens(&self, t: usize, p: usize) -> u8
        ensures { result ≡ tokens_on (transition (meaning self.now) t) p };
}

#[cfg(test)]
mod tests;
