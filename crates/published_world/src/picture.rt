// What is published.
ghost use Rattle.std.specs.Prelude.{◌≡◌, ℕ};

/// A numbered picture of some value.
pub trait Picture: Drop {
    /// What it is a picture of.
    type Of;

    /// The value that it is a picture of.
    ghost of: { Self → Self.Of };

    /// The number of the picture.
    ghost number: { Self → ℕ };

    /// The number of the picture.
    fn number(&self) -> u64
        ensures { result ≡ number self.now };
}
