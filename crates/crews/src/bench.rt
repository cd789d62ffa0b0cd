// The bench: two crews on the places of one net.
ghost use Rattle.crews.specs.Tables.{EndsAt};

use crate::crew::Crew;
use net::Net;

// Two crews, left (side 0) and right (side 1), on the places of one net. Beyond those their tables hold nothing.
#[derive(Drop)]
pub struct Bench<N: Net> {
    pub(crate) net: N,
    pub(crate) left: Crew,
    pub(crate) right: Crew,
    ghost left_ends: { EndsAt (N.Net.meaning net).places left.counts },
    ghost right_ends: { EndsAt (N.Net.meaning net).places right.counts },
}
