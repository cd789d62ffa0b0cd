// The token records of a file.
ghost use Rattle.std.specs.Prelude.{◌≡◌, length};
ghost use Rattle.records.specs.Layout.{record_size};
ghost use Rattle.records.specs.Entry.{reading};
ghost use Rattle.records.specs.Tokens.{tokens_said};

use crate::record::Record;

// So many tokens on a place of a side, 0 for the left crew and 1 for the right.
#[derive(Clone, Copy, PartialEq, Eq, Debug)]
pub struct Tokens {
    // Kept: the side is a number, since an enum would be turned back into one for each call that takes it.
    pub side: usize,
    pub place: usize,
    pub count: usize,
}

impl Tokens {
    // The tokens that a record puts, if it is a token record.
    pub(crate) fn read(bytes: &[u8]) -> Option<Tokens>
        requires { length bytes.now ≡ record_size }
        ensures { result ≡ tokens_said (reading bytes.now) }
    {
        match Record::read(bytes)? {
            Record::Tokens(tokens) => Some(tokens),
            _ => None,
        }
    }
}
