// A net that is given as a list of moves.
ghost use Rattle.std.specs.Prelude.{◌≡◌, true};
ghost use Rattle.class_tests.specs.Listing.{listed as listed_net, fits};
ghost use Rattle.class_tests.specs.ListingLaws.{listed_lawful};

use crate::checks::{are_fit, times_in};
use arrayvec::ArrayVec;
use classing::{Move, NO_TARGET, WIDTH};
use net::{MOST_PLACES, MOST_TRANSITIONS, Net};

#[derive(Drop)]
pub struct Listed {
    places: usize,
    rows: ArrayVec<Move, MOST_TRANSITIONS>,
    ghost ok: { fits places rows.items ≡ true },
}

impl Listed {
    // The net of the moves on the first n places, or an empty one where these do not keep the limits.
    pub fn new(places: usize, rows: &[Move]) -> Listed
        ensures { fits places rows.now ≡ true → listed_net result.places result.rows.items ≡ listed_net places rows.now }
    {
        match ArrayVec::try_from(rows) {
            Ok(rows) if places <= MOST_PLACES && are_fit(rows.as_slice(), places) => {
                Listed { places, rows }
            }
            _ => Listed {
                places: 0,
                rows: ArrayVec::new(),
            },
        }
    }
}

impl Net for Listed {
    ghost meaning = { λ x. listed_net x.places x.rows.items };

    ghost lawful = { λ x. listed_lawful x.places x.rows.items x.ok };

    fn places(&self) -> usize {
        self.places
    }

    fn transitions(&self) -> usize {
        self.rows.len()
    }

    fn place(&self, t: usize) -> usize {
        self.rows.get(t).map_or(0, |row| usize::from(row.place))
    }

    fn label(&self, t: usize) -> u8 {
        self.rows.get(t).map_or(0, |row| row.label)
    }

    fn total(&self, t: usize) -> u8 {
        // Kept: `map_or` was tried here and for the tokens, and what it answers was not proved.
        match self.rows.get(t) {
            Some(row) => WIDTH as u8 - times_in(&row.targets, NO_TARGET),
            None => 0,
        }
    }

    fn tokens(&self, t: usize, p: usize) -> u8 {
        if p >= self.places {
            return 0;
        }
        match self.rows.get(t) {
            Some(row) => times_in(&row.targets, p as u8),
            None => 0,
        }
    }
}
