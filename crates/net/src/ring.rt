// The ring net: modules that go round.
ghost use Rattle.std.specs.Prelude.{◌≡◌, ◌≤◌};
ghost use Rattle.net.specs.Rings.{circle, ring as ring_of};
ghost use Rattle.net.specs.RingLaws.{circle_lawful};

use crate::{MOST_LABEL, MOST_PLACES, Net};

// From each place one transition to the next, and from the last to the first, all with one label.
#[derive(Clone, Copy)]
pub struct Ring {
    size: usize,
    label: u8,
    ghost few: { size ≤ 128 },
    ghost small: { label ≤ 63 },
}

impl Ring {
    // A ring of `size` places, or an empty net where the size or the label is above its limit.
    pub fn new(size: usize, label: usize) -> Ring
        ensures { circle result.size result.label ≡ ring_of size label }
    {
        if size <= MOST_PLACES && label <= usize::from(MOST_LABEL) {
            Ring {
                size,
                label: label as u8,
            }
        } else {
            Ring { size: 0, label: 0 }
        }
    }
}

#[tactic(auto, using(crate::specs::RingLaws::ring_answers))]
impl Net for Ring {
    ghost meaning = { λ x. circle x.size x.label };

    ghost lawful = { λ x. circle_lawful x.size x.label x.few x.small };

    fn places(&self) -> usize {
        self.size
    }

    fn transitions(&self) -> usize {
        self.places()
    }

    fn place(&self, t: usize) -> usize {
        if t < self.size { t } else { 0 }
    }

    fn label(&self, t: usize) -> u8 {
        if t < self.size { self.label } else { 0 }
    }

    fn total(&self, t: usize) -> u8 {
        if t < self.size { 1 } else { 0 }
    }

    fn tokens(&self, t: usize, p: usize) -> u8 {
        if t >= self.size {
            return 0;
        }
        if p == (t + 1) % self.size { 1 } else { 0 }
    }
}
