//! What the layers above know of a cipher of data units.
ghost use Rattle.std.specs.Prelude.{◌≡◌, ◌+◌, ◌/◌, ◌%◌, ◌^◌, ◌≤◌, ◌<◌, List, ℕ, length};
ghost use Rattle.vc_base.specs.Bytes.{IsBytes, in_pieces};

/// A cipher of data units of 512 bytes, under keys of its own. Each unit is treated under its number
/// alone: unit i of the bytes that a call is given depends on the number `first + i` and its own bytes.
pub trait UnitCipher: Copy {
    // What a unit becomes under a number.
    ghost enciphered: { Self → ℕ → List ℕ → List ℕ };

    // The unit that it came from.
    ghost deciphered: { Self → ℕ → List ℕ → List ℕ };

    /// Enciphers whole units in place, of which the first has the number `first`.
    fn encipher_units(&self, first: u64, units: &mut [u8])
        requires whole { length units.old % 512 ≡ 0 }
        requires within { first + length units.old / 512 ≤ 2 ^ 55 }
        ensures { units.new ≡ in_pieces 512 (λ i u. enciphered self.now (first + i) u) units.old };

    /// Deciphers whole units in place, of which the first has the number `first`.
    fn decipher_units(&self, first: u64, units: &mut [u8])
        requires whole { length units.old % 512 ≡ 0 }
        requires within { first + length units.old / 512 ≤ 2 ^ 55 }
        ensures { units.new ≡ in_pieces 512 (λ i u. deciphered self.now (first + i) u) units.old };

    // A unit stays a unit, and under one number each direction undoes the other.
    ghost enciphered_is_unit: { (c : Self) (n : ℕ) (u : List ℕ) → n < 2 ^ 64 → IsBytes 512 u
        → IsBytes 512 (enciphered c n u) };

    ghost deciphered_is_unit: { (c : Self) (n : ℕ) (u : List ℕ) → n < 2 ^ 64 → IsBytes 512 u
        → IsBytes 512 (deciphered c n u) };

    ghost deciphers: { (c : Self) (n : ℕ) (u : List ℕ) → n < 2 ^ 64 → IsBytes 512 u
        → deciphered c n (enciphered c n u) ≡ u };

    ghost enciphers: { (c : Self) (n : ℕ) (u : List ℕ) → n < 2 ^ 64 → IsBytes 512 u
        → enciphered c n (deciphered c n u) ≡ u };
}
