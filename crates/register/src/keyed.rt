//! Records that tell their key.
ghost use Rattle.std.specs.Prelude.{◌≡◌, ℕ};

/// A record that tells its key.
pub trait Keyed {
    ghost key: { Self → ℕ };

    fn key(&self) -> u64
        ensures { result ≡ key self.now };
}
