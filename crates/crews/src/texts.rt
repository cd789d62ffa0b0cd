// Calls and their answers as text.
ghost use Rattle.std.specs.Prelude.{Some};
ghost use Rattle.crews.specs.Texts.{call_text, swap_text, swap_list_text, difference_text, answer_text};

use crate::{Answer, Call, Difference, MOST_SWAPS, Swap, SwapList};
use std::fmt;

// A call as a script has it. The room of a comparison is written where it is not that of the longest list.
impl fmt::Display for Call {
    ghost output = { λ call. Some (call_text call) };

    fn fmt<W: fmt::Write>(&self, f: &mut fmt::Formatter<W>) -> fmt::Result {
        match *self {
            Call::Put { side, place, count } => write!(f, "put {side} {place} {count}"),
            Call::Take { side, place, count } => write!(f, "take {side} {place} {count}"),
            Call::Fire { side, transition } => write!(f, "fire {side} {transition}"),
            Call::Follow { side, transition } => write!(f, "follow {side} {transition}"),
            Call::Count { side, place } => write!(f, "count {side} {place}"),
            Call::Compare { room } if room == MOST_SWAPS => write!(f, "compare"),
            Call::Compare { room } => write!(f, "compare {room}"),
        }
    }
}

// An entry of a swap list: the left place, the right place, and how many modules.
impl fmt::Display for Swap {
    ghost output = { λ swap. Some (swap_text swap) };

    fn fmt<W: fmt::Write>(&self, f: &mut fmt::Formatter<W>) -> fmt::Result {
        let Swap { left, right, count } = self;
        write!(f, "{left} {right} {count}")
    }
}

// The verdict that a swap list stands for, and its entries, each on a line of its own.
impl fmt::Display for SwapList {
    ghost output = { λ list. Some (swap_list_text list) };

    fn fmt<W: fmt::Write>(&self, f: &mut fmt::Formatter<W>) -> fmt::Result {
        write!(f, "ALIKE")?;
        for swap in self.swaps() {
            write!(f, "\n{swap}")?;
        }
        Ok(())
    }
}

// The class that differs, and its tokens on the left and on the right.
impl fmt::Display for Difference {
    ghost output = { λ difference. Some (difference_text difference) };

    fn fmt<W: fmt::Write>(&self, f: &mut fmt::Formatter<W>) -> fmt::Result {
        let Difference { class, left, right } = self;
        write!(f, "{class} {left} {right}")
    }
}

// What an accepted call answers.
impl fmt::Display for Answer {
    ghost output = { λ answer. Some (answer_text answer) };

    fn fmt<W: fmt::Write>(&self, f: &mut fmt::Formatter<W>) -> fmt::Result {
        match self {
            Answer::Done => write!(f, "done"),
            Answer::Tokens(count) => write!(f, "{count}"),
            Answer::Followed(transition) => write!(f, "{transition}"),
            Answer::Alike(list) => write!(f, "{list}"),
            Answer::Apart(difference) => write!(f, "APART {difference}"),
        }
    }
}
