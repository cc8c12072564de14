//! The key schedule: from the 8 words of a key 132 prekeys, and from these the round keys through
//! the boxes.
ghost use Rattle.std.specs.Prelude.{◌≡◌, ◌<◌, ◌-◌, drop};
ghost use Rattle.vc_base.specs.Bytes.{piece};
ghost use Rattle.vc_base.specs.Words.{word_of};
ghost use Rattle.lane_kernels.specs.SerpentRounds.{entry, substituted};
ghost use Rattle.serpent_core.specs.Serpent.{next_prekey, prekeys, round_keys};

use lane_kernels::{SerpentKeys, serpent_box};

// The first 32 bits of the fractional part of the golden ratio.
const GOLDEN: u32 = 0x9e37_79b9;

/// The 33 round keys that a key makes.
pub fn expand(key: &[u8; 32]) -> SerpentKeys
    ensures { result.k ≡ round_keys key.now }
{
    let words = all_words(key);
    let mut k = [[0; 4]; 33];
    for i in 0..33 {
        k[i] = key_of_round(&words, i);
    }
    SerpentKeys { k }
}

// The words of the key, and the prekeys after them.
fn all_words(key: &[u8; 32]) -> [u32; 140]
    ensures { result ≡ prekeys key.now 132 }
{
    let mut words = [0; 140];
    words[..8].copy_from_slice(&key_words(key));
    for i in 0..132 {
        let next = prekey(&words, i);
        words[i + 8] = next;
    }
    words
}

fn key_words(key: &[u8; 32]) -> [u32; 8]
    ensures { result ≡ prekeys key.now 0 }
{
    [
        key_word(key, 0),
        key_word(key, 1),
        key_word(key, 2),
        key_word(key, 3),
        key_word(key, 4),
        key_word(key, 5),
        key_word(key, 6),
        key_word(key, 7),
    ]
}

fn key_word(key: &[u8; 32], i: usize) -> u32
    requires { i < 8 }
    ensures { result ≡ word_of key.now i }
{
    u32::from_le_bytes([key[4 * i], key[4 * i + 1], key[4 * i + 2], key[4 * i + 3]])
}

// Prekey i, from the words before it.
fn prekey(words: &[u32; 140], i: usize) -> u32
    requires { i < 132 }
    ensures { result ≡ next_prekey words.now i }
{
    let sum = words[i] ^ words[i + 3] ^ words[i + 5] ^ words[i + 7] ^ (GOLDEN ^ i as u32);
    sum.rotate_left(11)
}

// Round key i, from the words of the key and the prekeys.
fn key_of_round(words: &[u32; 140], i: usize) -> [u32; 4]
    requires { i < 33 }
    ensures { result ≡ substituted (entry (35 - i)) (piece 4 i (drop 8 words.now)) }
{
    let at = 4 * i + 8;
    let x = [words[at], words[at + 1], words[at + 2], words[at + 3]];
    serpent_box(35 - i, x)
}
