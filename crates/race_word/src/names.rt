//! Which numbers may be offered.
ghost use Rattle.std.specs.Prelude.{ℕ};

/// Which numbers may be offered to a word. It is fixed when the word is made.
pub trait Names {
    /// It names the number.
    ghost names: { Self → ℕ → Type 0 };
}
