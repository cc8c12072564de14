//! A layer of any cipher, or of none.
ghost use Rattle.std.specs.Prelude.{◌≡◌, ◌+◌, ◌%◌, ◌^◌, ◌≤◌, ◌<◌, ℕ, List, length};
ghost use Rattle.vc_base.specs.Bytes.{piece, to_bytes};
ghost use Rattle.cipher_base.specs.Xts.{xts};
ghost use Rattle.cascade_set.specs.declared.stretch.AnyLayer.TheVariants.{Nothing, Aes, Serpent, Twofish};

use crate::layer::{Layer, numbers};
use aes_core::Aes256;
use cipher_base::BlockCipher;
use serpent_core::Serpent256;
use twofish_core::Twofish256;

/// A cipher of stretches of whole blocks, each under a data unit's number.
pub(crate) trait Stretch {
    // What a stretch becomes under a number.
    ghost enciphered: { Self → ℕ → List ℕ → List ℕ };

    // The stretch that it came from.
    ghost deciphered: { Self → ℕ → List ℕ → List ℕ };

    // T_0 of a number.
    ghost first_tweak: { Self → ℕ → List ℕ };

    /// T_0 of up to 8 units, one after the other, of which the first has the number `unit`.
    fn first_tweaks(&self, unit: u64, count: usize) -> [u8; 128]
        requires few { count ≤ 8 }
        requires within { unit + count < 2 ^ 64 }
        ensures { (j : ℕ) → j < count → piece 16 j result ≡ first_tweak self.now (unit + j) };

    /// Enciphers a stretch of up to 32 blocks, whose T_0 is the j-th of these.
    fn encipher(&self, tweaks: &[u8; 128], j: usize, stretch: &mut [u8])
        requires place { j < 8 }
        requires whole { length stretch.old % 16 ≡ 0 }
        requires short { length stretch.old ≤ 512 }
        ensures { (n : ℕ) → piece 16 j tweaks.now ≡ first_tweak self.now n
            → stretch.new ≡ enciphered self.now n stretch.old };

    /// Deciphers a stretch of up to 32 blocks, whose T_0 is the j-th of these.
    fn decipher(&self, tweaks: &[u8; 128], j: usize, stretch: &mut [u8])
        requires place { j < 8 }
        requires whole { length stretch.old % 16 ≡ 0 }
        requires short { length stretch.old ≤ 512 }
        ensures { (n : ℕ) → piece 16 j tweaks.now ≡ first_tweak self.now n
            → stretch.new ≡ deciphered self.now n stretch.old };
}

/// A layer of one of the ciphers, or of none, which changes nothing.
#[derive(Clone, Copy)]
pub(crate) enum AnyLayer {
    Nothing,
    Aes(Layer<Aes256>),
    Serpent(Layer<Serpent256>),
    Twofish(Layer<Twofish256>),
}

impl Stretch for AnyLayer {
    ghost enciphered = { λ c n s. elim c as (λ _. List ℕ) [
      | Nothing ↦ s
      | Aes l ↦ xts (⟦<Aes256 as BlockCipher>⟧.enciphered l.cipher.main) (⟦<Aes256 as BlockCipher>⟧.enciphered l.cipher.tweak) n s
      | Serpent l ↦ xts (⟦<Serpent256 as BlockCipher>⟧.enciphered l.cipher.main) (⟦<Serpent256 as BlockCipher>⟧.enciphered l.cipher.tweak) n s
      | Twofish l ↦ xts (⟦<Twofish256 as BlockCipher>⟧.enciphered l.cipher.main) (⟦<Twofish256 as BlockCipher>⟧.enciphered l.cipher.tweak) n s
    ] };

    ghost deciphered = { λ c n s. elim c as (λ _. List ℕ) [
      | Nothing ↦ s
      | Aes l ↦ xts (⟦<Aes256 as BlockCipher>⟧.deciphered l.cipher.main) (⟦<Aes256 as BlockCipher>⟧.enciphered l.cipher.tweak) n s
      | Serpent l ↦ xts (⟦<Serpent256 as BlockCipher>⟧.deciphered l.cipher.main) (⟦<Serpent256 as BlockCipher>⟧.enciphered l.cipher.tweak) n s
      | Twofish l ↦ xts (⟦<Twofish256 as BlockCipher>⟧.deciphered l.cipher.main) (⟦<Twofish256 as BlockCipher>⟧.enciphered l.cipher.tweak) n s
    ] };

    ghost first_tweak = { λ c n. elim c as (λ _. List ℕ) [
      | Nothing ↦ to_bytes 16 n
      | Aes l ↦ ⟦<Aes256 as BlockCipher>⟧.enciphered l.cipher.tweak (to_bytes 16 n)
      | Serpent l ↦ ⟦<Serpent256 as BlockCipher>⟧.enciphered l.cipher.tweak (to_bytes 16 n)
      | Twofish l ↦ ⟦<Twofish256 as BlockCipher>⟧.enciphered l.cipher.tweak (to_bytes 16 n)
    ] };

    fn first_tweaks(&self, unit: u64, count: usize) -> [u8; 128] {
        match self {
            AnyLayer::Nothing => numbers(unit, count),
            AnyLayer::Aes(layer) => layer.first_tweaks(unit, count),
            AnyLayer::Serpent(layer) => layer.first_tweaks(unit, count),
            AnyLayer::Twofish(layer) => layer.first_tweaks(unit, count),
        }
    }

    fn encipher(&self, tweaks: &[u8; 128], j: usize, stretch: &mut [u8]) {
        match self {
            AnyLayer::Nothing => {}
            AnyLayer::Aes(layer) => layer.encipher(tweaks, j, stretch),
            AnyLayer::Serpent(layer) => layer.encipher(tweaks, j, stretch),
            AnyLayer::Twofish(layer) => layer.encipher(tweaks, j, stretch),
        }
    }

    fn decipher(&self, tweaks: &[u8; 128], j: usize, stretch: &mut [u8]) {
        match self {
            AnyLayer::Nothing => {}
            AnyLayer::Aes(layer) => layer.decipher(tweaks, j, stretch),
            AnyLayer::Serpent(layer) => layer.decipher(tweaks, j, stretch),
            AnyLayer::Twofish(layer) => layer.decipher(tweaks, j, stretch),
        }
    }
}
