//! The key schedule (FIPS 197, 5.2): the 60 words of 4 bytes that the round keys are made of.
ghost use Rattle.std.specs.Prelude.{◌≡◌, ◌≤◌, ◌<◌, ◌-◌, [], ◌∷◌};
ghost use Rattle.vc_base.specs.Bytes.{piece};
ghost use Rattle.aes_core.specs.Aes.{schedule, sub_word, turned, next_word};

use crate::planes::transposed;
use crate::sbox::substituted;
use std::simd::u8x16;

/// The 60 words that a key makes.
pub fn expand(key: &[u8; 32]) -> [u8; 240]
    ensures { result ≡ schedule key.now 52 }
{
    let mut words = [0; 240];
    fill(key, &mut words);
    words
}

// Writes them.
fn fill(key: &[u8; 32], words: &mut [u8; 240])
    ensures { words.new ≡ schedule key.now 52 }
{
    words[..32].copy_from_slice(key);
    for i in 8..60 {
        let word = next(words, i);
        words[4 * i..4 * i + 4].copy_from_slice(&word);
    }
}

// Word i, from the words before it.
fn next(words: &[u8; 240], i: usize) -> [u8; 4]
    requires first { 8 ≤ i }
    requires last { i < 60 }
    ensures { result ≡ next_word i words.now }
{
    let [a, b, c, d] = word(words, i - 8);
    let [e, f, g, h] = turn(i, word(words, i - 1));
    [a ^ e, b ^ f, c ^ g, d ^ h]
}

// Word i.
fn word(words: &[u8; 240], i: usize) -> [u8; 4]
    requires { i < 60 }
    ensures { result ≡ piece 4 i words.now }
{
    words.as_chunks::<4>().0[i]
}

// What word i - 1 adds to word i.
fn turn(i: usize, last: [u8; 4]) -> [u8; 4]
    requires first { 8 ≤ i }
    requires last { i < 60 }
    ensures { result ≡ turned i last }
{
    let [a, b, c, d] = last;
    if i % 8 == 0 {
        let [e, f, g, h] = substituted_word(b, c, d, a);
        [e ^ (1 << (i / 8 - 1)), f, g, h]
    } else if i % 8 == 4 {
        substituted_word(a, b, c, d)
    } else {
        last
    }
}

// SubWord: the word is in the first lanes of eight equal rows, which go through the circuit of the S-box.
fn substituted_word(a: u8, b: u8, c: u8, d: u8) -> [u8; 4]
    ensures { result ≡ sub_word (a ∷ b ∷ c ∷ d ∷ []) }
{
    let block = u8x16::from_array([a, b, c, d, 0, 0, 0, 0, 0, 0, 0, 0, 0, 0, 0, 0]);
    let [first, ..] = transposed(substituted(transposed([block; 8])));
    let [e, f, g, h, ..] = first.to_array();
    [e, f, g, h]
}
