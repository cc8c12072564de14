//! Whole blocks: one alone, or two side by side.
//!
//! A round waits most of the time for its look-ups. Two blocks wait together, so that a pair takes
//! little longer than a block.
ghost use Rattle.std.specs.Prelude.{◌≡◌, ◌≤◌, ◌+◌, ◌*◌, length};
ghost use Rattle.vc_base.specs.Bytes.{piece};
ghost use Rattle.twofish_core.specs.Twofish.{g_under, cipher, inverse_cipher};

use crate::g::Boxes;
use crate::rounds::{exchange, two_inverse_rounds, two_rounds, whiten};
use crate::words::{block_of, words_of};

/// A block, enciphered.
pub fn encipher_one(boxes: &Boxes, keys: &[u32; 40], p: [u8; 16]) -> [u8; 16]
    ensures { result ≡ cipher (g_under boxes.now.words) keys.now p }
{
    let mut s = whiten(keys, 0, words_of(&p));
    for i in 0..8 {
        let next = two_rounds(boxes, keys, 2 * i, s);
        s = next;
    }
    block_of(whiten(keys, 4, exchange(s)))
}

/// A block, deciphered.
pub fn decipher_one(boxes: &Boxes, keys: &[u32; 40], p: [u8; 16]) -> [u8; 16]
    ensures { result ≡ inverse_cipher (g_under boxes.now.words) keys.now p }
{
    let mut s = exchange(whiten(keys, 4, words_of(&p)));
    for i in (0..8).rev() {
        let next = two_inverse_rounds(boxes, keys, 2 * i, s);
        s = next;
    }
    block_of(whiten(keys, 0, s))
}

/// Two blocks, enciphered.
#[inline(always)]
pub fn encipher_two(
    boxes: &Boxes,
    keys: &[u32; 40],
    p: [u8; 16],
    q: [u8; 16],
) -> ([u8; 16], [u8; 16])
    ensures first { result.0 ≡ cipher (g_under boxes.now.words) keys.now p }
    ensures second { result.1 ≡ cipher (g_under boxes.now.words) keys.now q }
{
    let mut s = whiten(keys, 0, words_of(&p));
    let mut t = whiten(keys, 0, words_of(&q));
    for i in 0..8 {
        let next_s = two_rounds(boxes, keys, 2 * i, s);
        let next_t = two_rounds(boxes, keys, 2 * i, t);
        s = next_s;
        t = next_t;
    }
    (
        block_of(whiten(keys, 4, exchange(s))),
        block_of(whiten(keys, 4, exchange(t))),
    )
}

/// Two blocks, deciphered.
#[inline(always)]
pub fn decipher_two(
    boxes: &Boxes,
    keys: &[u32; 40],
    p: [u8; 16],
    q: [u8; 16],
) -> ([u8; 16], [u8; 16])
    ensures first { result.0 ≡ inverse_cipher (g_under boxes.now.words) keys.now p }
    ensures second { result.1 ≡ inverse_cipher (g_under boxes.now.words) keys.now q }
{
    let mut s = exchange(whiten(keys, 4, words_of(&p)));
    let mut t = exchange(whiten(keys, 4, words_of(&q)));
    for i in (0..8).rev() {
        let next_s = two_inverse_rounds(boxes, keys, 2 * i, s);
        let next_t = two_inverse_rounds(boxes, keys, 2 * i, t);
        s = next_s;
        t = next_t;
    }
    (block_of(whiten(keys, 0, s)), block_of(whiten(keys, 0, t)))
}

/// Block i of a list of blocks.
#[inline(always)]
pub fn block_at(blocks: &[u8], i: usize) -> [u8; 16]
    requires { 16 * i + 16 ≤ length blocks.now }
    ensures { result ≡ piece 16 i blocks.now }
{
    let mut block = [0; 16];
    block.copy_from_slice(&blocks[16 * i..16 * i + 16]);
    block
}
