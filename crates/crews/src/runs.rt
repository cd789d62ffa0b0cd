// Calls as values: one performed on a bench, or a list of them from an empty bench on.
ghost use Rattle.std.specs.Prelude.{◌≡◌, IfOk};
ghost use Rattle.crews.specs.Calls.{TriedInOrder};
ghost use Rattle.crews.specs.Benches.{Steps, Extends, ReplayedOr};
ghost use Rattle.crews.specs.declared.call.Call.TheVariants.{Compare};

use crate::{Answer, Bench, Call, MOST_SWAPS, Swap, SwapList, Verdict};
use net::{Fault, Net, Refusal};

// Compares into the front of a list, with as much of the room as it has.
fn compared<N: Net>(bench: &Bench<N>, room: usize) -> Result<Answer, Fault>
    ensures { Steps (N.Net.meaning bench.now.net) bench.now (Compare room) result bench.now }
{
    let mut entries = [Swap::default(); MOST_SWAPS];
    match bench.compare(&mut entries[..room.min(MOST_SWAPS)])? {
        Verdict::Alike { used } => Ok(Answer::Alike(SwapList { entries, used })),
        Verdict::Apart(d) => Ok(Answer::Apart(d)),
    }
}

// Makes a call by the bench's method for it.
fn answer<N: Net>(bench: &mut Bench<N>, call: Call) -> Result<Answer, Fault>
    ensures { Steps (N.Net.meaning bench.old.net) bench.old call result bench.new }
{
    match call {
        Call::Put { side, place, count } => bench.put(side, place, count).map(|()| Answer::Done),
        Call::Take { side, place, count } => bench.take(side, place, count).map(|()| Answer::Done),
        Call::Fire { side, transition } => bench.fire(side, transition).map(|()| Answer::Done),
        Call::Follow { side, transition } => bench.follow(side, transition).map(Answer::Followed),
        Call::Count { side, place } => bench.count(side, place).map(Answer::Tokens),
        Call::Compare { room } => compared(bench, room),
    }
}

// Performs one call. Whatever calls and answers led from empty crews to those of the bench, with this one they lead to those that it holds then.
pub fn perform<N: Net>(bench: &mut Bench<N>, call: Call) -> Result<Answer, Fault>
    ensures steps { Steps (N.Net.meaning bench.old.net) bench.old call result bench.new }
    ensures extends { Extends (N.Net.meaning bench.old.net) bench.old call result bench.new }
    ensures order { TriedInOrder }
{
    answer(bench, call)
}

// Performs the calls in order on a bench just made, writes their answers into the front of the list, and gives the bench back.
// Refused where the list is shorter than the calls.
pub fn replay<N: Net + Drop>(
    net: N,
    calls: &[Call],
    answers: &mut [Result<Answer, Fault>],
) -> Result<Bench<N>, Fault>
    ensures same { IfOk result (λ bench. bench.net ≡ net) }
    ensures replayed { ReplayedOr (N.Net.meaning net) calls.now answers.old answers.new result }
{
    if answers.len() < calls.len() {
        return Err(Fault::plain(Refusal::ShortList));
    }
    let mut bench = Bench::new(net);
    // Kept: the answers go in step with the calls: what a `zip` with `iter_mut` writes, no contract knows, and by `enumerate` one of the two lists is read or written by index all the same.
    for (i, call) in calls.iter().enumerate() {
        answers[i] = perform(&mut bench, *call);
    }
    Ok(bench)
}
