//! One layer of an algorithm: XTS over one of the block ciphers.
//!
//! `Keyed` passes a unit through its layers one after the other, so a layer treats one stretch at a
//! time. Only the first tweaks of units are made for several at once.
//!
//! `Keyed` has to prove the laws of a `UnitCipher`. Only generic code gets a block cipher's laws, through
//! its bound; a layer keeps them in a ghost field, where `Keyed` finds them.
ghost use Rattle.std.specs.Prelude.{◌≡◌, ◌<◌, ◌≤◌, ◌+◌, ◌%◌, ◌^◌, ⊤, ℕ, List, length};
ghost use Rattle.cipher_base.specs.Xts.{xts};
ghost use Rattle.vc_base.specs.Bytes.{joined, piece, to_bytes};
ghost use Rattle.cipher_base.specs.Field.{times_power};
ghost use Rattle.cascade_set.specs.Laws.Lawful.{IsLawful};

use cipher_base::{BlockCipher, Xts};
use lane_kernels::{tweak_run, xor_into};
use std::alloc::AllocError;

/// XTS over a block cipher, with the laws that it has from the cipher's.
pub(crate) struct Layer<P: BlockCipher> {
    pub(crate) cipher: Xts<P>,
    ghost lawful: { IsLawful (xts (P.enciphered cipher.main) (P.enciphered cipher.tweak))
        (xts (P.deciphered cipher.main) (P.enciphered cipher.tweak)) },
}

impl<P: BlockCipher> Clone for Layer<P> {
    ghost is_clone = { λ x y. y ≡ x };

    ghost is_infallible = { λ _. ⊤ };

    fn clone(&self) -> Result<Layer<P>, AllocError> {
        Ok(*self)
    }
}

impl<P: BlockCipher> Copy for Layer<P> {}

impl<P: BlockCipher> Layer<P> {
    /// XTS with the cipher under its main key and under its tweak key.
    pub(crate) fn new(main: P, tweak: P) -> Layer<P>
        ensures main { (b : List ℕ) → P.enciphered result.cipher.main b ≡ P.enciphered main b }
        ensures back { (b : List ℕ) → P.deciphered result.cipher.main b ≡ P.deciphered main b }
        ensures tweak { (b : List ℕ) → P.enciphered result.cipher.tweak b ≡ P.enciphered tweak b }
    {
        Layer {
            cipher: Xts::new(main, tweak),
        }
    }

    /// T_0 of up to 8 units, one after the other, of which the first has the number `unit`. They are
    /// enciphered together, since many ciphers take no longer over eight blocks than over one.
    pub(crate) fn first_tweaks(&self, unit: u64, count: usize) -> [u8; 128]
        requires few { count ≤ 8 }
        requires within { unit + count < 2 ^ 64 }
        ensures { (j : ℕ) → j < count
            → piece 16 j result ≡ P.enciphered self.now.cipher.tweak (to_bytes 16 (unit + j)) }
    {
        let mut tweaks = numbers(unit, count);
        self.cipher.tweak.encipher_blocks(&mut tweaks[..16 * count]);
        tweaks
    }

    /// Enciphers a stretch of up to 32 blocks, whose T_0 is the j-th of these.
    pub(crate) fn encipher(&self, tweaks: &[u8; 128], j: usize, stretch: &mut [u8])
        requires place { j < 8 }
        requires whole { length stretch.old % 16 ≡ 0 }
        requires short { length stretch.old ≤ 512 }
        ensures { (n : ℕ) → piece 16 j tweaks.now ≡ P.enciphered self.now.cipher.tweak (to_bytes 16 n)
            → stretch.new ≡ xts (P.enciphered self.now.cipher.main) (P.enciphered self.now.cipher.tweak) n stretch.old }
    {
        let run = run_from(tweaks, j);
        let masks = &run[..stretch.len()];
        xor_into(stretch, masks);
        self.cipher.main.encipher_blocks(stretch);
        xor_into(stretch, masks);
    }

    /// Deciphers a stretch of up to 32 blocks, whose T_0 is the j-th of these.
    pub(crate) fn decipher(&self, tweaks: &[u8; 128], j: usize, stretch: &mut [u8])
        requires place { j < 8 }
        requires whole { length stretch.old % 16 ≡ 0 }
        requires short { length stretch.old ≤ 512 }
        ensures { (n : ℕ) → piece 16 j tweaks.now ≡ P.enciphered self.now.cipher.tweak (to_bytes 16 n)
            → stretch.new ≡ xts (P.deciphered self.now.cipher.main) (P.enciphered self.now.cipher.tweak) n stretch.old }
    {
        let run = run_from(tweaks, j);
        let masks = &run[..stretch.len()];
        xor_into(stretch, masks);
        self.cipher.main.decipher_blocks(stretch);
        xor_into(stretch, masks);
    }
}

// The tweaks T_0 to T_31 of a unit whose T_0 is the j-th of these.
fn run_from(tweaks: &[u8; 128], j: usize) -> [u8; 512]
    requires { j < 8 }
    ensures { result ≡ joined (λ i. times_power i (piece 16 j tweaks.now)) 32 }
{
    let mut tweak = [0; 16];
    tweak.copy_from_slice(&tweaks[16 * j..16 * j + 16]);
    let mut run = [0; 512];
    tweak_run(&tweak, &mut run);
    run
}

/// The numbers of up to 8 units, each as 16 bytes.
pub(crate) fn numbers(unit: u64, count: usize) -> [u8; 128]
    requires few { count ≤ 8 }
    requires within { unit + count < 2 ^ 64 }
    ensures { (j : ℕ) → j < count → piece 16 j result ≡ to_bytes 16 (unit + j) }
{
    let mut all = [0; 128];
    for i in 0..count {
        all[16 * i..16 * i + 16].copy_from_slice(&number(unit + i as u64));
    }
    all
}

// A number as 16 bytes.
fn number(n: u64) -> [u8; 16]
    ensures { result ≡ to_bytes 16 n }
{
    let [a, b, c, d, e, f, g, h] = n.to_le_bytes();
    [a, b, c, d, e, f, g, h, 0, 0, 0, 0, 0, 0, 0, 0]
}
