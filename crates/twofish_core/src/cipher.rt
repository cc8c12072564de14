//! The cipher and its inverse under a key of 32 bytes.
ghost use Rattle.std.specs.Prelude.{◌≡◌, List, ℕ};
ghost use Rattle.twofish_core.specs.Twofish.{g_under, enciphered, deciphered, cipher, inverse_cipher};
ghost use Rattle.vc_base.specs.Words.{AreWords};
ghost use Rattle.twofish_core.specs.Laws.Undone.{cipher_is_block, inverse_cipher_is_block, cipher_undone, cipher_done};

use crate::blocks::{block_at, decipher_one, decipher_two, encipher_one, encipher_two};
use crate::g::Boxes;
use crate::schedule::round_keys;
use cipher_base::BlockCipher;

/// Twofish under one key of 32 bytes.
#[derive(Clone, Copy)]
pub struct Twofish256 {
    boxes: Boxes,
    // K_0 to K_39.
    keys: [u32; 40],
    ghost are_words: { AreWords 40 keys },
}

impl Twofish256 {
    /// Twofish under a key.
    pub fn new(key: &[u8; 32]) -> Twofish256
        ensures enciphers { (b : List ℕ)
            → ⟦<Twofish256 as BlockCipher>⟧.enciphered result b ≡ enciphered key.now b }
        ensures deciphers { (b : List ℕ)
            → ⟦<Twofish256 as BlockCipher>⟧.deciphered result b ≡ deciphered key.now b }
    {
        Twofish256 {
            boxes: Boxes::new(key),
            keys: round_keys(key),
        }
    }
}

// The two calls on lists are never inlined: in a larger function the loop over rounds has too few
// registers, and reads the address of the tables from memory before each look-up.
impl BlockCipher for Twofish256 {
    ghost enciphered = { λ c b. cipher (g_under c.boxes.words) c.keys b };

    ghost deciphered = { λ c b. inverse_cipher (g_under c.boxes.words) c.keys b };

    ghost enciphered_is_block = { λ c b _. cipher_is_block (g_under c.boxes.words) c.keys b };

    ghost deciphered_is_block = { λ c b _.
        inverse_cipher_is_block (g_under c.boxes.words) c.keys b };

    ghost deciphers = { λ c b is. cipher_undone (g_under c.boxes.words) c.keys b c.are_words is };

    ghost enciphers = { λ c b is. cipher_done (g_under c.boxes.words) c.keys b c.are_words is };

    fn encipher(&self, block: &mut [u8; 16]) {
        *block = encipher_one(&self.boxes, &self.keys, *block);
    }

    fn decipher(&self, block: &mut [u8; 16]) {
        *block = decipher_one(&self.boxes, &self.keys, *block);
    }

    #[inline(never)]
    fn encipher_blocks(&self, blocks: &mut [u8]) {
        let pairs = blocks.len() / 32;
        for i in 0..pairs {
            let p = block_at(blocks, 2 * i);
            let q = block_at(blocks, 2 * i + 1);
            let (p, q) = encipher_two(&self.boxes, &self.keys, p, q);
            blocks[32 * i..32 * i + 16].copy_from_slice(&p);
            blocks[32 * i + 16..32 * i + 32].copy_from_slice(&q);
        }
        for j in 2 * pairs..blocks.len() / 16 {
            let block = encipher_one(&self.boxes, &self.keys, block_at(blocks, j));
            blocks[16 * j..16 * j + 16].copy_from_slice(&block);
        }
    }

    #[inline(never)]
    fn decipher_blocks(&self, blocks: &mut [u8]) {
        let pairs = blocks.len() / 32;
        for i in 0..pairs {
            let p = block_at(blocks, 2 * i);
            let q = block_at(blocks, 2 * i + 1);
            let (p, q) = decipher_two(&self.boxes, &self.keys, p, q);
            blocks[32 * i..32 * i + 16].copy_from_slice(&p);
            blocks[32 * i + 16..32 * i + 32].copy_from_slice(&q);
        }
        for j in 2 * pairs..blocks.len() / 16 {
            let block = decipher_one(&self.boxes, &self.keys, block_at(blocks, j));
            blocks[16 * j..16 * j + 16].copy_from_slice(&block);
        }
    }
}

#[cfg(test)]
mod tests;
