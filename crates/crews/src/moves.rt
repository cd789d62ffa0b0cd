// A bench just made, the calls that move or count one crew, and what every call asks of its bench.
ghost use Rattle.std.specs.Prelude.{◌≡◌};
ghost use Rattle.team.specs.Classes.{ClassedBy};
ghost use Rattle.crews.specs.Crews.{nobody};
ghost use Rattle.crews.specs.Tables.{EndsAt};
ghost use Rattle.crews.specs.Benches.{crews_held, Steps, KnownOr, ReadyOr, LaidOut, Replaced, table_on, answer_of};
ghost use Rattle.crews.specs.declared.call.Call.TheVariants.{Put, Take, Fire, Count};
ghost use Rattle.crews.specs.declared.call.Answer.TheVariants.{Done, Tokens};

use crate::Bench;
use crate::crew::Crew;
use crate::crewed::Crewed;
use crate::side::Side;
use classing::{ClassTable, Partition};
use net::{Fault, Net, Refusal};

impl<N: Net> Bench<N> {
    // A bench over the net, with no token on it.
    pub fn new(net: N) -> Self
        ensures same { result.net ≡ net }
        ensures empty { crews_held (N.Net.meaning net) result ≡ nobody (N.Net.meaning net).places }
    {
        Bench {
            net,
            left: Crew::new(),
            right: Crew::new(),
        }
    }

    // How many tokens the crew on a side has on a place.
    pub fn count(&self, side: usize, place: usize) -> Result<u16, Fault>
        ensures { Steps (N.Net.meaning self.now.net) self.now (Count side place) (answer_of Tokens result) self.now }
    {
        let side = known(self.net.places(), side, place)?;
        Ok(self.crew(side).at(place))
    }

    // Puts tokens of a side on a place.
    pub fn put(&mut self, side: usize, place: usize, count: usize) -> Result<(), Fault>
        ensures { Steps (N.Net.meaning self.old.net) self.old (Put side place count) (answer_of (λ _. Done) result) self.new }
    {
        let side = known(self.net.places(), side, place)?;
        let mut crew = self.crew(side);
        if count > crew.room() {
            return Err(Fault::plain(Refusal::TooManyTokens));
        }
        crew.add(place, count as u16);
        self.replace(side, crew);
        Ok(())
    }

    // Takes tokens of a side from a place.
    pub fn take(&mut self, side: usize, place: usize, count: usize) -> Result<(), Fault>
        ensures { Steps (N.Net.meaning self.old.net) self.old (Take side place count) (answer_of (λ _. Done) result) self.new }
    {
        let side = known(self.net.places(), side, place)?;
        let mut crew = self.crew(side);
        if count > usize::from(crew.at(place)) {
            return Err(Fault::plain(Refusal::TooFewTokens));
        }
        crew.remove(place, count as u16);
        self.replace(side, crew);
        Ok(())
    }

    // Fires a transition on a side: a token leaves the transition's place, and the tokens that it puts down come.
    pub fn fire(&mut self, side: usize, transition: usize) -> Result<(), Fault>
        ensures { Steps (N.Net.meaning self.old.net) self.old (Fire side transition) (answer_of (λ _. Done) result) self.new }
    {
        let side = self.ready(side, transition)?;
        let mut crew = self.crew(side);
        if usize::from(self.net.total(transition)) > crew.room() + 1 {
            return Err(Fault::plain(Refusal::TooManyTokens));
        }
        crew.fire(&self.net, transition);
        self.replace(side, crew);
        Ok(())
    }

    // The side of that number, with a token on the place of a transition.
    pub(crate) fn ready(&self, side: usize, transition: usize) -> Result<Side, Fault>
        ensures { ReadyOr (N.Net.meaning self.now.net) self.now side transition result }
    {
        let side = known(self.net.transitions(), side, transition)?;
        if self.crew(side).at(self.net.place(transition)) < 1 {
            return Err(Fault::plain(Refusal::TooFewTokens));
        }
        Ok(side)
    }

    // The class of each place.
    pub(crate) fn class_table(&self) -> ClassTable
        ensures { ClassedBy (N.Net.meaning self.now.net) result.classes }
    {
        Partition::of(&self.net).table
    }

    // The two crews, on the net's places and by their classes.
    pub(crate) fn crewed<'a>(&'a self, table: &'a ClassTable) -> Crewed<'a>
        requires { ClassedBy (N.Net.meaning self.now.net) table.now.classes }
        ensures { LaidOut (N.Net.meaning self.now.net) self.now result }
    {
        let places = self.net.places();
        Crewed {
            classes: &table.classes[..places],
            left: &self.left.counts[..places],
            right: &self.right.counts[..places],
        }
    }

    // The table of the crew on a side.
    pub(crate) fn crew(&self, side: Side) -> Crew
        ensures { result ≡ table_on self.now side }
    {
        match side {
            Side::Left => self.left,
            Side::Right => self.right,
        }
    }

    // Puts another table in the place of a side's.
    pub(crate) fn replace(&mut self, side: Side, crew: Crew)
        requires { EndsAt (N.Net.meaning self.old.net).places crew.counts }
        ensures { Replaced self.old side crew self.new }
    {
        match side {
            Side::Left => self.left = crew,
            Side::Right => self.right = crew,
        }
    }
}

// The side of that number. Refuses a side that there is not, and then another number that is not below the count.
fn known(count: usize, side: usize, number: usize) -> Result<Side, Fault>
    ensures { KnownOr count side number result }
{
    let side = Side::try_from(side)?;
    if number >= count {
        return Err(Fault::plain(Refusal::OutOfRange));
    }
    Ok(side)
}
