//! An algorithm's keys.
ghost use Rattle.std.specs.Prelude.{◌≡◌, ℕ, List};
ghost use Rattle.cascade_set.specs.Cascade.{CountAlike, enciphered, deciphered};
ghost use Rattle.cascade_set.specs.declared.keys.Keys.{Keys};

use algorithm_names::Algorithm;

/// An algorithm with its key material. With k ciphers only the first 64·k bytes count.
#[derive(Clone, Copy)]
pub struct Keys {
    pub algorithm: Algorithm,
    pub material: [u8; 192],
}

/// Material past the first 64 bytes for each cipher doesn't count. No body: a law of the definitions.
pub fn later_material_is_unused()
    ensures enciphers { (a b : Keys) → CountAlike a b → (n : ℕ) (stretch : List ℕ)
        → enciphered a n stretch ≡ enciphered b n stretch }
    ensures deciphers { (a b : Keys) → CountAlike a b → (n : ℕ) (stretch : List ℕ)
        → deciphered a n stretch ≡ deciphered b n stretch }
{}
