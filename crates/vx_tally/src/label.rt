//! What comes with an addition and is kept until the next one.
ghost use Rattle.std.specs.Prelude.{◌≡◌, ℕ};

/// A value of the caller's own, of which the history has the name alone.
pub trait Label: Drop {
    ghost name: { Self → ℕ };

    fn name(&self) -> u64
        ensures { result ≡ name self.now };
}

/// A label that is its name.
#[derive(Clone, Copy)]
pub struct Plain(pub u64);

impl Label for Plain {
    ghost name = { λ label. label.0 };

    fn name(&self) -> u64 {
        self.0
    }
}
