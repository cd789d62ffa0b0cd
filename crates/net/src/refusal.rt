// Why a call is refused. A call tries its refusals in the order of their numbers and gives the first that is met.
ghost use Rattle.std.specs.Prelude.{◌≡◌, Some};
ghost use Rattle.net.specs.Refusals.{number_of, plain as plain_fault, at_spot as fault_at};
ghost use Rattle.net.specs.Texts.{fault_text};

use std::fmt;

#[derive(Clone, Copy, PartialEq, Eq, Debug)]
pub enum Refusal {
    // the file's length is no whole number of records
    PartialRecord = 1,
    // a record breaks its form
    MalformedRecord = 2,
    // a record names an undeclared place, or declares one out of turn
    UndeclaredPlace = 3,
    // a record is one place, transition or record too many
    OverLimit = 4,
    // two nets do not fit the limits when joined
    Unfit = 5,
    // the side is neither 0 nor 1
    UnknownSide = 6,
    // a place or transition number is not below the net's count
    OutOfRange = 7,
    // the crew has fewer tokens on the place than the call takes
    TooFewTokens = 8,
    // follow is called while the crews are APART
    CrewsApart = 9,
    // a crew would hold more than 4,096 tokens
    TooManyTokens = 10,
    // the caller's list is too short
    ShortList = 11,
    // a sheet is too long or has an unlawful line
    UnlawfulSheet = 12,
    // the line asked for is not on the sheet
    UnknownLine = 13,
}

impl Refusal {
    // The number by which users know the refusal.
    // Kept: `u8::from(refusal)` would be no plainer than the name `number`.
    pub fn number(self) -> u8
        ensures { result ≡ number_of self }
    {
        self as u8
    }
}

// A refusal, and the spot where one is named: a record, line or entry number.
#[derive(Clone, Copy, PartialEq, Eq, Debug)]
pub struct Fault {
    pub refusal: Refusal,
    pub spot: Option<usize>,
}

impl Fault {
    // The fault of a refusal that names no spot.
    // Kept: `Fault::from(refusal)` would be no plainer than `plain`, beside `at`.
    pub fn plain(refusal: Refusal) -> Fault
        ensures { result ≡ plain_fault refusal }
    {
        Fault {
            refusal,
            spot: None,
        }
    }

    // The fault of a refusal at a spot.
    pub fn at(refusal: Refusal, spot: usize) -> Fault
        ensures { result ≡ fault_at refusal spot }
    {
        Fault {
            refusal,
            spot: Some(spot),
        }
    }
}

// A fault is written as the number of its refusal, and behind it the spot where one is named.
impl fmt::Display for Fault {
    ghost output = { λ fault. Some (fault_text fault) };

    fn fmt<W: fmt::Write>(&self, f: &mut fmt::Formatter<W>) -> fmt::Result {
        let number = self.refusal.number();
        match self.spot {
            Some(spot) => write!(f, "{number} {spot}"),
            None => write!(f, "{number}"),
        }
    }
}
