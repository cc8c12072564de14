//! The cipher and the inverse cipher (FIPS 197, 5.1 and 5.3) under a key of 32 bytes.
ghost use Rattle.std.specs.Prelude.{◌≡◌, List, ℕ};
ghost use Rattle.aes_core.specs.Aes.{enciphered, deciphered, cipher, inverse_cipher};
ghost use Rattle.aes_core.specs.Laws.Undone.{cipher_is_block, inverse_cipher_is_block, cipher_undone, cipher_done};

use crate::keys::RoundKeys;
use crate::rounds::{decipher_all, encipher_all};
use cipher_base::BlockCipher;

/// AES-256 under one key.
#[derive(Clone, Copy)]
pub struct Aes256 {
    keys: RoundKeys,
}

impl Aes256 {
    /// AES-256 under a key.
    pub fn new(key: &[u8; 32]) -> Aes256
        ensures enciphers { (b : List ℕ) → ⟦<Aes256 as BlockCipher>⟧.enciphered result b ≡ enciphered key.now b }
        ensures deciphers { (b : List ℕ) → ⟦<Aes256 as BlockCipher>⟧.deciphered result b ≡ deciphered key.now b }
    {
        Aes256 {
            keys: RoundKeys::new(key),
        }
    }
}

impl BlockCipher for Aes256 {
    ghost enciphered = { λ c b. cipher c.keys.schedule b };

    ghost deciphered = { λ c b. inverse_cipher c.keys.schedule b };

    ghost enciphered_is_block = { λ c b is. cipher_is_block c.keys.schedule b c.keys.bytes is };

    ghost deciphered_is_block = { λ c b is. inverse_cipher_is_block c.keys.schedule b c.keys.bytes is };

    ghost deciphers = { λ c b is. cipher_undone c.keys.schedule b c.keys.bytes is };

    ghost enciphers = { λ c b is. cipher_done c.keys.schedule b c.keys.bytes is };

    fn encipher(&self, block: &mut [u8; 16]) {
        encipher_all(&self.keys, block);
    }

    fn decipher(&self, block: &mut [u8; 16]) {
        decipher_all(&self.keys, block);
    }

    fn encipher_blocks(&self, blocks: &mut [u8]) {
        encipher_all(&self.keys, blocks);
    }

    fn decipher_blocks(&self, blocks: &mut [u8]) {
        decipher_all(&self.keys, blocks);
    }
}

#[cfg(test)]
mod tests;
