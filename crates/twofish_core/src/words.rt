//! Bytes as words and words as bytes (Twofish, 4).
ghost use Rattle.std.specs.Prelude.{◌≡◌, ◌+◌, ◌*◌, ◌≤◌, length};
ghost use Rattle.vc_base.specs.Words.{word_of, words_of, block_of};

/// Word i of a list of bytes.
#[inline(always)]
pub fn word_of(bytes: &[u8], i: usize) -> u32
    requires { 4 * i + 4 ≤ length bytes.now }
    ensures { result ≡ word_of bytes.now i }
{
    u32::from_le_bytes(bytes.as_chunks::<4>().0[i])
}

/// The four words of a block.
#[inline(always)]
pub fn words_of(block: &[u8; 16]) -> [u32; 4]
    ensures { result ≡ words_of block.now }
{
    [
        word_of(block, 0),
        word_of(block, 1),
        word_of(block, 2),
        word_of(block, 3),
    ]
}

/// The block of four words.
#[inline(always)]
pub fn block_of(s: [u32; 4]) -> [u8; 16]
    ensures { result ≡ block_of s }
{
    let [a0, a1, a2, a3] = s[0].to_le_bytes();
    let [b0, b1, b2, b3] = s[1].to_le_bytes();
    let [c0, c1, c2, c3] = s[2].to_le_bytes();
    let [d0, d1, d2, d3] = s[3].to_le_bytes();
    [
        a0, a1, a2, a3, b0, b1, b2, b3, c0, c1, c2, c3, d0, d1, d2, d3,
    ]
}
