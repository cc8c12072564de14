//! XTS: a block cipher under two keys, as a cipher of data units.
ghost use Rattle.std.specs.Prelude.{◌≡◌, ◌+◌, ◌%◌, ◌^◌, ◌≤◌, ◌<◌, ℕ, List, length};
ghost use Rattle.vc_base.specs.Bytes.{IsBytes, joined, xor_bytes, to_bytes, piece, in_pieces};
ghost use Rattle.cipher_base.specs.Field.{times_power};
ghost use Rattle.cipher_base.specs.Xts.{whitened, xts};
ghost use Rattle.cipher_base.specs.Laws.{IsBytes-xts, xts_undone};

use crate::block::BlockCipher;
use crate::field::{bytes, double_words, words, write_words};
use crate::unit::UnitCipher;
use std::cmp::min;

/// XTS over a block cipher: `main` is the cipher under the main key, `tweak` under the tweak key.
#[derive(Clone, Copy)]
pub struct Xts<P: BlockCipher> {
    pub main: P,
    pub tweak: P,
}

impl<P: BlockCipher> Xts<P> {
    /// XTS with the cipher under its main key and under its tweak key.
    pub fn new(main: P, tweak: P) -> Xts<P>
        ensures main { result.main ≡ main }
        ensures tweak { result.tweak ≡ tweak }
    {
        Xts { main, tweak }
    }

    /// Enciphers up to 32 whole blocks in place, as one stretch under the data unit number `unit`.
    pub fn encipher_stretch(&self, unit: u64, stretch: &mut [u8])
        requires whole { length stretch.old % 16 ≡ 0 }
        requires short { length stretch.old ≤ 512 }
        ensures enciphered { stretch.new ≡ xts (P.enciphered self.now.main) (P.enciphered self.now.tweak) unit stretch.old }
        ensures undoes { (u : List ℕ) → IsBytes (length stretch.old) u
            → stretch.old ≡ xts (P.deciphered self.now.main) (P.enciphered self.now.tweak) unit u → stretch.new ≡ u }
    {
        self.encipher_from(self.first_tweak(unit), stretch);
    }

    /// Deciphers up to 32 whole blocks in place, as one stretch under the data unit number `unit`.
    pub fn decipher_stretch(&self, unit: u64, stretch: &mut [u8])
        requires whole { length stretch.old % 16 ≡ 0 }
        requires short { length stretch.old ≤ 512 }
        ensures deciphered { stretch.new ≡ xts (P.deciphered self.now.main) (P.enciphered self.now.tweak) unit stretch.old }
        ensures undoes { (u : List ℕ) → IsBytes (length stretch.old) u
            → stretch.old ≡ xts (P.enciphered self.now.main) (P.enciphered self.now.tweak) unit u → stretch.new ≡ u }
    {
        self.decipher_from(self.first_tweak(unit), stretch);
    }

    // Enciphers a stretch whose T_0 is `first`.
    fn encipher_from(&self, first: [u8; 16], stretch: &mut [u8])
        requires block { IsBytes 16 first }
        requires whole { length stretch.old % 16 ≡ 0 }
        requires short { length stretch.old ≤ 512 }
        ensures { stretch.new ≡ in_pieces 16 (λ j p. whitened (P.enciphered self.now.main) (times_power j first) p) stretch.old }
    {
        let tweaks = powers(first);
        xor_into(stretch, &tweaks);
        self.main.encipher_blocks(stretch);
        xor_into(stretch, &tweaks);
    }

    // Deciphers a stretch whose T_0 is `first`.
    fn decipher_from(&self, first: [u8; 16], stretch: &mut [u8])
        requires block { IsBytes 16 first }
        requires whole { length stretch.old % 16 ≡ 0 }
        requires short { length stretch.old ≤ 512 }
        ensures { stretch.new ≡ in_pieces 16 (λ j p. whitened (P.deciphered self.now.main) (times_power j first) p) stretch.old }
    {
        let tweaks = powers(first);
        xor_into(stretch, &tweaks);
        self.main.decipher_blocks(stretch);
        xor_into(stretch, &tweaks);
    }

    // T_0: the number of the unit as 16 bytes, enciphered with the tweak key.
    fn first_tweak(&self, unit: u64) -> [u8; 16]
        ensures { result ≡ P.enciphered self.now.tweak (to_bytes 16 unit) }
    {
        let mut tweak = bytes(unit, 0);
        self.tweak.encipher(&mut tweak);
        tweak
    }

    // T_0 of up to 32 units, one after the other, of which the first has the number `unit`. They are
    // enciphered together, since many ciphers take no longer over eight blocks than over one.
    fn first_tweaks(&self, unit: u64, count: usize) -> [u8; 512]
        requires few { count ≤ 32 }
        requires within { unit + count < 2 ^ 64 }
        ensures { (j : ℕ) → j < count → piece 16 j result ≡ P.enciphered self.now.tweak (to_bytes 16 (unit + j)) }
    {
        let mut tweaks = [0; 512];
        for i in 0..count {
            write_words(&mut tweaks[16 * i..16 * i + 16], unit + i as u64, 0);
        }
        self.tweak.encipher_blocks(&mut tweaks[..16 * count]);
        tweaks
    }
}

impl<P: BlockCipher> UnitCipher for Xts<P> {
    ghost enciphered = { λ x n u. xts (P.enciphered x.main) (P.enciphered x.tweak) n u };

    ghost deciphered = { λ x n u. xts (P.deciphered x.main) (P.enciphered x.tweak) n u };

    fn encipher_units(&self, first: u64, units: &mut [u8]) {
        let count = units.len() / 512;
        let mut tweaks = [0; 512];
        for i in 0..count {
            if i % 32 == 0 {
                tweaks = self.first_tweaks(first + i as u64, min(count - i, 32));
            }
            let mut tweak = [0; 16];
            tweak.copy_from_slice(&tweaks[16 * (i % 32)..16 * (i % 32) + 16]);
            self.encipher_from(tweak, &mut units[512 * i..512 * i + 512]);
        }
    }

    fn decipher_units(&self, first: u64, units: &mut [u8]) {
        let count = units.len() / 512;
        let mut tweaks = [0; 512];
        for i in 0..count {
            if i % 32 == 0 {
                tweaks = self.first_tweaks(first + i as u64, min(count - i, 32));
            }
            let mut tweak = [0; 16];
            tweak.copy_from_slice(&tweaks[16 * (i % 32)..16 * (i % 32) + 16]);
            self.decipher_from(tweak, &mut units[512 * i..512 * i + 512]);
        }
    }

    ghost enciphered_is_unit = { λ c n u _ b.
        IsBytes-xts 32 (P.enciphered c.main) (P.enciphered c.tweak) n u (P.enciphered_is_block c.main) b };

    ghost deciphered_is_unit = { λ c n u _ b.
        IsBytes-xts 32 (P.deciphered c.main) (P.enciphered c.tweak) n u (P.deciphered_is_block c.main) b };

    ghost deciphers = { λ c n u _ b.
        xts_undone 32 (P.enciphered c.main) (P.deciphered c.main) (P.enciphered c.tweak) n u
        (P.enciphered_is_block c.main) (P.deciphers c.main) b };

    ghost enciphers = { λ c n u _ b.
        xts_undone 32 (P.deciphered c.main) (P.enciphered c.main) (P.enciphered c.tweak) n u
        (P.deciphered_is_block c.main) (P.enciphers c.main) b };
}

// 16 bytes times 1, x and so on to x^31, one after the other.
fn powers(first: [u8; 16]) -> [u8; 512]
    requires { IsBytes 16 first }
    ensures { result ≡ joined (λ j. times_power j first) 32 }
{
    let (mut low, mut high) = words(&first);
    let mut all = [0; 512];
    for i in 0..32 {
        write_words(&mut all[16 * i..16 * i + 16], low, high);
        (low, high) = double_words(low, high);
    }
    all
}

// The mask is copied: what is written might else be taken for a part of it.
fn xor_into(bytes: &mut [u8], mask: &[u8; 512])
    requires { length bytes.old ≤ 512 }
    ensures { bytes.new ≡ xor_bytes bytes.old mask.now }
{
    let mask = *mask;
    for i in 0..bytes.len() {
        bytes[i] ^= mask[i];
    }
}

#[cfg(test)]
mod tests;
