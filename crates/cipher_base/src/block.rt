//! What the layers above know of a block cipher.
ghost use Rattle.std.specs.Prelude.{◌≡◌, ◌%◌, List, ℕ, length};
ghost use Rattle.vc_base.specs.Bytes.{IsBytes, in_pieces};

/// A block cipher under one key, on blocks of 16 bytes.
pub trait BlockCipher: Copy {
    // What a block becomes.
    ghost enciphered: { Self → List ℕ → List ℕ };

    // The block that it came from.
    ghost deciphered: { Self → List ℕ → List ℕ };

    /// Enciphers one block in place.
    fn encipher(&self, block: &mut [u8; 16])
        ensures { block.new ≡ enciphered self.now block.old };

    /// Deciphers one block in place.
    fn decipher(&self, block: &mut [u8; 16])
        ensures { block.new ≡ deciphered self.now block.old };

    /// Enciphers each block of a list of whole blocks, in place.
    fn encipher_blocks(&self, blocks: &mut [u8])
        requires { length blocks.old % 16 ≡ 0 }
        ensures { blocks.new ≡ in_pieces 16 (λ _ b. enciphered self.now b) blocks.old }
    {
        for i in 0..blocks.len() / 16 {
            let piece = &mut blocks[16 * i..16 * i + 16];
            let mut block = [0; 16];
            block.copy_from_slice(piece);
            self.encipher(&mut block);
            piece.copy_from_slice(&block);
        }
    }

    /// Deciphers each block of a list of whole blocks, in place.
    fn decipher_blocks(&self, blocks: &mut [u8])
        requires { length blocks.old % 16 ≡ 0 }
        ensures { blocks.new ≡ in_pieces 16 (λ _ b. deciphered self.now b) blocks.old }
    {
        for i in 0..blocks.len() / 16 {
            let piece = &mut blocks[16 * i..16 * i + 16];
            let mut block = [0; 16];
            block.copy_from_slice(piece);
            self.decipher(&mut block);
            piece.copy_from_slice(&block);
        }
    }

    // A block stays a block, and each direction undoes the other.
    ghost enciphered_is_block: { (c : Self) (b : List ℕ) → IsBytes 16 b → IsBytes 16 (enciphered c b) };

    ghost deciphered_is_block: { (c : Self) (b : List ℕ) → IsBytes 16 b → IsBytes 16 (deciphered c b) };

    ghost deciphers: { (c : Self) (b : List ℕ) → IsBytes 16 b → deciphered c (enciphered c b) ≡ b };

    ghost enciphers: { (c : Self) (b : List ℕ) → IsBytes 16 b → enciphered c (deciphered c b) ≡ b };
}
