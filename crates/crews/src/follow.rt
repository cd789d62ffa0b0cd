// Following: a transition on one side, and one that fits it across.
ghost use Rattle.std.specs.Prelude.{◌≡◌};
ghost use Rattle.crews.specs.Benches.{Steps, answer_of};
ghost use Rattle.crews.specs.declared.call.Call.TheVariants.{Follow};
ghost use Rattle.crews.specs.declared.call.Answer.TheVariants.{Followed};

use crate::Bench;
use crate::search::answering;
use net::{Fault, Net, Refusal};

impl<N: Net> Bench<N> {
    // Fires a transition on a side, and one that fits it across, whose number is the answer.
    pub fn follow(&mut self, side: usize, transition: usize) -> Result<usize, Fault>
        ensures { Steps (N.Net.meaning self.old.net) self.old (Follow side transition) (answer_of Followed result) self.new }
    {
        let side = self.ready(side, transition)?;
        let table = self.class_table();
        if self.crewed(&table).difference().is_some() {
            return Err(Fault::plain(Refusal::CrewsApart));
        }
        let mut crew = self.crew(side);
        let across = side.other();
        let mut other = self.crew(across);
        let total = usize::from(self.net.total(transition));
        if total > crew.room() + 1 || total > other.room() + 1 {
            return Err(Fault::plain(Refusal::TooManyTokens));
        }
        let answer = answering(&self.net, &table, &other.counts, transition);
        crew.fire(&self.net, transition);
        other.fire(&self.net, answer);
        self.replace(side, crew);
        self.replace(across, other);
        Ok(answer)
    }
}
