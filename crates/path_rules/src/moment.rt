//! When something that an owner keeps is due.

/// Something that the owner of ends keeps (own). It is due at a moment, which is a class and a time, or at none.
pub trait Moment: Copy {
    ghost use Rattle.std.specs.Prelude.{◌≡◌, ℕ, Option};

    ghost moment_of: { Self → Option (ℕ × ℕ) };

    /// The class, and the time in milliseconds.
    fn moment(&self) -> Option<(u8, u64)>
        ensures { result ≡ moment_of self.now };
}
