//! Whole blocks under the round keys of Serpent.
ghost use Rattle.std.specs.Prelude.{◌≡◌, ◌%◌, length};
ghost use Rattle.vc_base.specs.Bytes.{in_pieces};
ghost use Rattle.lane_kernels.specs.SerpentRounds.{entry, substituted, cipher, inverse_cipher};

use crate::lane_rounds::{decipher_eight, encipher_eight};
use crate::rounds::{decipher, encipher};
use crate::steps::boxed;

/// The round keys: key i is four words.
#[derive(Clone, Copy)]
pub struct SerpentKeys {
    pub k: [[u32; 4]; 33],
}

/// S-box `k`, counted modulo 8, on each of the 32 nibbles of four words, for a key schedule.
pub fn serpent_box(k: usize, words: [u32; 4]) -> [u32; 4]
    ensures { result ≡ substituted (entry k) words }
{
    boxed(k, words)
}

/// Enciphers each block of a list of whole blocks, in place.
pub fn serpent_blocks(keys: &SerpentKeys, blocks: &mut [u8])
    requires { length blocks.old % 16 ≡ 0 }
    ensures { blocks.new ≡ in_pieces 16 (λ _ b. cipher keys.now.k b) blocks.old }
{
    let groups = blocks.len() / 128;
    for i in 0..groups {
        encipher_eight(keys, &mut blocks[128 * i..128 * i + 128]);
    }
    for j in 8 * groups..blocks.len() / 16 {
        let piece = &mut blocks[16 * j..16 * j + 16];
        let mut block = [0; 16];
        block.copy_from_slice(piece);
        piece.copy_from_slice(&encipher(keys, block));
    }
}

/// Deciphers each block of a list of whole blocks, in place.
pub fn serpent_unblocks(keys: &SerpentKeys, blocks: &mut [u8])
    requires { length blocks.old % 16 ≡ 0 }
    ensures { blocks.new ≡ in_pieces 16 (λ _ b. inverse_cipher keys.now.k b) blocks.old }
{
    let groups = blocks.len() / 128;
    for i in 0..groups {
        decipher_eight(keys, &mut blocks[128 * i..128 * i + 128]);
    }
    for j in 8 * groups..blocks.len() / 16 {
        let piece = &mut blocks[16 * j..16 * j + 16];
        let mut block = [0; 16];
        block.copy_from_slice(piece);
        piece.copy_from_slice(&decipher(keys, block));
    }
}

#[cfg(test)]
mod tests;
