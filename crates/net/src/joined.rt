// The joined net: two nets side by side as one.
ghost use Rattle.std.specs.Prelude.{◌≡◌, ◌+◌, if◌then◌else◌, Ok, Err};
ghost use Rattle.net.specs.Joins.{joined as join_of, fits as fitting};
ghost use Rattle.net.specs.JoinLaws.{joined_lawful, seam_between, Seamed, brought};
ghost use Rattle.net.specs.Meaning.{transition};
ghost use Rattle.net.specs.Refusals.{plain as plain_fault};
ghost use Rattle.net.specs.declared.refusal.Refusal.TheVariants.{Unfit};

use crate::{Fault, MOST_PLACES, MOST_TRANSITIONS, Net, Refusal};

// Tells whether two nets fit the limits together; refused where they do not.
pub fn fit<A1: Net, B1: Net>(left: &A1, right: &B1) -> Result<(), Fault>
    ensures { result ≡ (if fitting (A1.Net.meaning left.now) (B1.Net.meaning right.now) then Ok tt else Err (plain_fault Unfit)) }
{
    seam_of(left, right)
        .map(|_| ())
        .ok_or(Fault::plain(Refusal::Unfit))
}

// Where the right net begins in the joined one, and where it ends.
#[derive(Clone, Copy)]
struct Seam {
    left_places: usize,
    places: usize,
    left_transitions: usize,
    transitions: usize,
}

// The seam of two nets, or none where they do not fit.
fn seam_of<A1: Net, B1: Net>(left: &A1, right: &B1) -> Option<Seam>
    ensures { result ≡ seam_between (A1.Net.meaning left.now) (B1.Net.meaning right.now) }
{
    let left_places = left.places();
    let places = left_places + right.places();
    let left_transitions = left.transitions();
    let transitions = left_transitions + right.transitions();
    if places <= MOST_PLACES && transitions <= MOST_TRANSITIONS {
        Some(Seam {
            left_places,
            places,
            left_transitions,
            transitions,
        })
    } else {
        None
    }
}

// Which net a transition comes from, and its number there; so many places stand before those of the right net.
#[derive(Clone, Copy)]
enum Origin {
    Left(usize),
    Right { number: usize, before: usize },
}

// The left net's places and transitions keep their numbers, and the right net's follow.
#[derive(Drop)]
pub struct Joined<A1: Net, B1: Net> {
    left: A1,
    right: B1,
    // asked of the two nets once
    seam: Option<Seam>,
    ghost seamed: { seam ≡ seam_between (A1.Net.meaning left) (B1.Net.meaning right) },
}

impl<A1: Net, B1: Net> Joined<A1, B1> {
    // The two nets as one, or an empty net where they do not fit.
    pub fn new(left: A1, right: B1) -> Self
        ensures { (result.left ≡ left) × (result.right ≡ right) }
    {
        let seam = seam_of(&left, &right);
        Joined { left, right, seam }
    }

    // Where the right net begins and ends, or none where the two do not fit.
    fn seam(&self) -> Option<Seam>
        ensures { Seamed (A1.Net.meaning self.now.left) (B1.Net.meaning self.now.right) result }
    {
        self.seam
    }

    // Where transition t comes from, or none where there is no such transition.
    fn origin(&self, t: usize) -> Option<Origin>
        ensures { brought (A1.Net.meaning self.now.left) (B1.Net.meaning self.now.right) result ≡ transition (join_of (A1.Net.meaning self.now.left) (B1.Net.meaning self.now.right)) t }
    {
        let seam = self.seam()?;
        if t < seam.left_transitions {
            Some(Origin::Left(t))
        } else if t < seam.transitions {
            Some(Origin::Right {
                number: t - seam.left_transitions,
                before: seam.left_places,
            })
        } else {
            None
        }
    }
}

impl<A1: Net, B1: Net> Net for Joined<A1, B1> {
    ghost meaning = { λ x. join_of (A1.Net.meaning x.left) (B1.Net.meaning x.right) };

    ghost lawful = { λ x. joined_lawful _ _ (A1.Net.lawful x.left) (B1.Net.lawful x.right) };

    fn places(&self) -> usize {
        self.seam().map_or(0, |seam| seam.places)
    }

    fn transitions(&self) -> usize {
        self.seam().map_or(0, |seam| seam.transitions)
    }

    // Kept: this and the next three ask each another thing of the parts, and one function for them would take two closures, one for each kind of net.
    fn place(&self, t: usize) -> usize {
        match self.origin(t) {
            Some(Origin::Left(number)) => self.left.place(number),
            Some(Origin::Right { number, before }) => before + self.right.place(number),
            None => 0,
        }
    }

    fn label(&self, t: usize) -> u8 {
        match self.origin(t) {
            Some(Origin::Left(number)) => self.left.label(number),
            Some(Origin::Right { number, .. }) => self.right.label(number),
            None => 0,
        }
    }

    fn total(&self, t: usize) -> u8 {
        match self.origin(t) {
            Some(Origin::Left(number)) => self.left.total(number),
            Some(Origin::Right { number, .. }) => self.right.total(number),
            None => 0,
        }
    }

    fn tokens(&self, t: usize, p: usize) -> u8 {
        match self.origin(t) {
            Some(Origin::Left(number)) => self.left.tokens(number, p),
            Some(Origin::Right { number, before }) if p >= before => {
                self.right.tokens(number, p - before)
            }
            _ => 0,
        }
    }
}
