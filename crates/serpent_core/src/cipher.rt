//! Serpent under a key of 32 bytes.
ghost use Rattle.std.specs.Prelude.{◌≡◌, List, ℕ};
ghost use Rattle.lane_kernels.specs.SerpentRounds.{cipher, inverse_cipher};
ghost use Rattle.lane_kernels.proofs.Blocks.{cipher-bytes, inverse_cipher-bytes};
ghost use Rattle.serpent_core.specs.Serpent.{enciphered, deciphered};
ghost use Rattle.serpent_core.specs.Laws.Undone.{AreRoundKeys, cipher_undone, cipher_done};

use crate::schedule::expand;
use cipher_base::BlockCipher;
use lane_kernels::{SerpentKeys, serpent_blocks, serpent_unblocks};

/// Serpent under one key.
#[derive(Clone, Copy)]
pub struct Serpent256 {
    keys: SerpentKeys,
    ghost words: { AreRoundKeys keys.k },
}

impl Serpent256 {
    /// Serpent under a key.
    pub fn new(key: &[u8; 32]) -> Serpent256
        ensures enciphers { (b : List ℕ)
            → ⟦<Serpent256 as BlockCipher>⟧.enciphered result b ≡ enciphered key.now b }
        ensures deciphers { (b : List ℕ)
            → ⟦<Serpent256 as BlockCipher>⟧.deciphered result b ≡ deciphered key.now b }
    {
        Serpent256 { keys: expand(key) }
    }
}

impl BlockCipher for Serpent256 {
    ghost enciphered = { λ c b. cipher c.keys.k b };

    ghost deciphered = { λ c b. inverse_cipher c.keys.k b };

    ghost enciphered_is_block = { λ c b _. cipher-bytes c.keys.k b };

    ghost deciphered_is_block = { λ c b _. inverse_cipher-bytes c.keys.k b };

    ghost deciphers = { λ c b is. cipher_undone c.keys.k b c.words is };

    ghost enciphers = { λ c b is. cipher_done c.keys.k b c.words is };

    fn encipher(&self, block: &mut [u8; 16]) {
        serpent_blocks(&self.keys, block);
    }

    fn decipher(&self, block: &mut [u8; 16]) {
        serpent_unblocks(&self.keys, block);
    }

    fn encipher_blocks(&self, blocks: &mut [u8]) {
        serpent_blocks(&self.keys, blocks);
    }

    fn decipher_blocks(&self, blocks: &mut [u8]) {
        serpent_unblocks(&self.keys, blocks);
    }
}

#[cfg(test)]
mod tests;
