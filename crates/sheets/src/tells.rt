// Whoever can say where lines hold.
ghost use Rattle.std.specs.Prelude.{◌≡◌, ℕ, ◌<◌, Bool};
ghost use Rattle.net.specs.Limits.{most_places};

pub(crate) trait Tells {
    ghost tells: { Self → ℕ → ℕ → Bool };

    // Whether the line holds at the place.
    fn tell(&self, line: u16, place: usize) -> bool
        requires { place < most_places }
        ensures { result ≡ tells self.now line place };
}
