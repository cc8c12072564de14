//! The words of the rounds (Twofish, 4.3.4).
ghost use Rattle.std.specs.Prelude.{◌≡◌, ◌<◌};
ghost use Rattle.twofish_core.specs.Twofish.{even_words, odd_words, key_pair, round_keys};

use crate::h::h;
use crate::words::word_of;

const RHO: u32 = 0x0101_0101;

/// The words K_0 to K_39 of a key.
pub fn round_keys(key: &[u8; 32]) -> [u32; 40]
    ensures { result ≡ round_keys key.now }
{
    let mut keys = [0; 40];
    for i in 0..20 {
        let pair = key_pair(key, i);
        keys[2 * i..2 * i + 2].copy_from_slice(&pair);
    }
    keys
}

// K_2i and K_(2i + 1).
fn key_pair(key: &[u8; 32], i: usize) -> [u32; 2]
    requires { i < 20 }
    ensures { result ≡ key_pair key.now i }
{
    let place = 2 * i as u32;
    let a = h(place * RHO, even_words(key));
    let b = h((place + 1) * RHO, odd_words(key)).rotate_left(8);
    let sum = a.wrapping_add(b);
    [sum, sum.wrapping_add(b).rotate_left(9)]
}

fn even_words(key: &[u8; 32]) -> [u32; 4]
    ensures { result ≡ even_words key.now }
{
    [
        word_of(key, 0),
        word_of(key, 2),
        word_of(key, 4),
        word_of(key, 6),
    ]
}

fn odd_words(key: &[u8; 32]) -> [u32; 4]
    ensures { result ≡ odd_words key.now }
{
    [
        word_of(key, 1),
        word_of(key, 3),
        word_of(key, 5),
        word_of(key, 7),
    ]
}
