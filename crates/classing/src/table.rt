// Class tables: the class of each place, named by its lowest place.
ghost use Rattle.std.specs.Prelude.{◌≡◌, ℕ, ◌<◌, ◌≤◌, length, slice_index};
ghost use Rattle.net.specs.Limits.{most_places};
ghost use Rattle.team.specs.Tables.{agree};

use net::MOST_PLACES;

// One entry for each place that a net can have; those past its own places say nothing.
#[derive(Clone, Copy)]
pub struct ClassTable {
    pub classes: [u8; MOST_PLACES],
}

impl ClassTable {
    // Every place in class 0.
    pub fn start() -> ClassTable
        ensures { (p : ℕ) → slice_index result.classes p ≡ 0 }
    {
        ClassTable {
            classes: [0; MOST_PLACES],
        }
    }

    // The class of place p, and 0 where p is no place.
    pub fn class_of(&self, p: usize) -> u8
        ensures { result ≡ slice_index self.now.classes p }
    {
        self.classes.get(p).copied().unwrap_or(0)
    }

    // Whether the two tables have the same classes for the first n places.
    // Kept: n beside the table, here and below, which by a rule of the project has 128 entries, of which a net uses its first n.
    pub(crate) fn agrees(&self, other: &ClassTable, n: usize) -> bool
        requires { n ≤ most_places }
        ensures { result ≡ agree n self.now.classes other.now.classes }
    {
        self.classes[..n] == other.classes[..n]
    }

    // Writes the classes of the first n places into the list.
    pub(crate) fn write(&self, n: usize, list: &mut [u8])
        requires few { n ≤ most_places }
        requires room { n ≤ length list.old }
        ensures written { (p : ℕ) → p < n → slice_index list.new p ≡ slice_index self.now.classes p }
        ensures kept { (p : ℕ) → n ≤ p → slice_index list.new p ≡ slice_index list.old p }
    {
        list[..n].copy_from_slice(&self.classes[..n]);
    }
}
