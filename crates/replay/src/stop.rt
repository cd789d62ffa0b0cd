// Why a replay ends before its calls are made.
use net::Fault;
use std::error::Error;

#[derive(Debug, Drop)]
pub(crate) enum Stop {
    // the arguments name no net
    Unnamed,
    // what is to be read cannot be, and standard error says why
    Told,
    // a file of records, or the net of two, is refused
    Refused(Fault),
    // the machine fails
    Failed(anyhow::Error),
}

impl<E: Error> From<E> for Stop {
    fn from(error: E) -> Stop {
        Stop::Failed(anyhow::Error::from(error))
    }
}
