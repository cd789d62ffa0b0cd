// Two crews on the same places, with the class of each place. It knows classes and counts, and no bench.
ghost use Rattle.std.specs.Prelude.{◌≡◌, ℕ, ◌<◌, ◌≤◌, length, sum, slice_index};

// One entry for each place in every list.
#[derive(Clone, Copy)]
pub(crate) struct Crewed<'a> {
    pub(crate) classes: &'a [u8],
    pub(crate) left: &'a [u16],
    pub(crate) right: &'a [u16],
    ghost few: { length classes.now ≤ 128 },
    ghost lefts: { length left.now ≡ length classes.now },
    ghost rights: { length right.now ≡ length classes.now },
    ghost named: { (p : ℕ) → p < length classes.now → slice_index classes.now p < 128 },
    ghost left_small: { sum left.now ≤ 4096 },
    ghost right_small: { sum right.now ≤ 4096 },
}
