//! Blocks as states: four words, each of four bytes with the lowest first.
ghost use Rattle.std.specs.Prelude.{◌≡◌};
ghost use Rattle.vc_base.specs.Words.{words_of, block_of};

/// The state that a block spells.
#[inline(always)]
pub fn words(bytes: [u8; 16]) -> [u32; 4]
    ensures { result ≡ words_of bytes }
{
    let [a, b, c, d, e, f, g, h, i, j, k, l, m, n, o, p] = bytes;
    [
        u32::from_le_bytes([a, b, c, d]),
        u32::from_le_bytes([e, f, g, h]),
        u32::from_le_bytes([i, j, k, l]),
        u32::from_le_bytes([m, n, o, p]),
    ]
}

/// The block that spells a state.
#[inline(always)]
pub fn bytes(words: [u32; 4]) -> [u8; 16]
    ensures { result ≡ block_of words }
{
    let [a, b, c, d] = words[0].to_le_bytes();
    let [e, f, g, h] = words[1].to_le_bytes();
    let [i, j, k, l] = words[2].to_le_bytes();
    let [m, n, o, p] = words[3].to_le_bytes();
    [a, b, c, d, e, f, g, h, i, j, k, l, m, n, o, p]
}
