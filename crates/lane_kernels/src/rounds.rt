//! The rounds on one state.
//!
//! Boxes are counted modulo 8, so eight rounds in a row pass through the boxes 0 to 7. The last of the
//! 32 rounds has no linear transformation, so 31 rounds are counted here.
ghost use Rattle.std.specs.Prelude.{◌≡◌, ◌<◌, ◌≤◌, ◌+◌, ◌-◌, ◌%◌, List, ℕ};
ghost use Rattle.lane_kernels.specs.SerpentRounds.{rounds, inverse_rounds, cipher, inverse_cipher};

use crate::serpent::SerpentKeys;
use crate::steps::{boxed, mix, unboxed, unmix, with_key};
use crate::words::{bytes, words};

/// A block, enciphered.
#[inline(always)]
pub fn encipher(keys: &SerpentKeys, block: [u8; 16]) -> [u8; 16]
    ensures { result ≡ cipher keys.now.k block }
{
    let mut x = words(block);
    for i in 0..3 {
        let y = seven_rounds(keys, 8 * i, x);
        x = round(keys, 8 * i + 7, 7, y);
    }
    let y = seven_rounds(keys, 24, x);
    let last = boxed(7, with_key(keys, 31, y));
    bytes(with_key(keys, 32, last))
}

/// A block, deciphered.
#[inline(always)]
pub fn decipher(keys: &SerpentKeys, block: [u8; 16]) -> [u8; 16]
    ensures { result ≡ inverse_cipher keys.now.k block }
{
    let last = unboxed(7, with_key(keys, 32, words(block)));
    let mut x = seven_rounds_undone(keys, 24, with_key(keys, 31, last));
    for i in (0..3).rev() {
        let y = round_undone(keys, 8 * i + 7, 7, x);
        x = seven_rounds_undone(keys, 8 * i, y);
    }
    bytes(x)
}

// The state after seven more rounds, from the state after the first `first` rounds.
#[inline(always)]
fn seven_rounds(keys: &SerpentKeys, first: usize, x: [u32; 4]) -> [u32; 4]
    requires from_box_0 { first % 8 ≡ 0 }
    requires within { first ≤ 24 }
    ensures { (start : List ℕ) → x ≡ rounds keys.now.k start first
        → result ≡ rounds keys.now.k start (first + 7) }
{
    let x = round(keys, first, 0, x);
    let x = round(keys, first + 1, 1, x);
    let x = round(keys, first + 2, 2, x);
    let x = round(keys, first + 3, 3, x);
    let x = round(keys, first + 4, 4, x);
    let x = round(keys, first + 5, 5, x);
    round(keys, first + 6, 6, x)
}

// The state with seven more rounds undone, down to round `first`.
#[inline(always)]
fn seven_rounds_undone(keys: &SerpentKeys, first: usize, x: [u32; 4]) -> [u32; 4]
    requires to_box_0 { first % 8 ≡ 0 }
    requires within { first ≤ 24 }
    ensures { (end : List ℕ) → x ≡ inverse_rounds keys.now.k end (24 - first)
        → result ≡ inverse_rounds keys.now.k end (31 - first) }
{
    let x = round_undone(keys, first + 6, 6, x);
    let x = round_undone(keys, first + 5, 5, x);
    let x = round_undone(keys, first + 4, 4, x);
    let x = round_undone(keys, first + 3, 3, x);
    let x = round_undone(keys, first + 2, 2, x);
    let x = round_undone(keys, first + 1, 1, x);
    round_undone(keys, first, 0, x)
}

// Round `r`, through box `k`.
#[inline(always)]
fn round(keys: &SerpentKeys, r: usize, k: usize, x: [u32; 4]) -> [u32; 4]
    requires within { r < 31 }
    requires through { k % 8 ≡ r % 8 }
    ensures { (start : List ℕ) (n : ℕ) → n ≡ r + 1 → x ≡ rounds keys.now.k start r
        → result ≡ rounds keys.now.k start n }
{
    mix(boxed(k, with_key(keys, r, x)))
}

// Round `r` undone, through the inverse of box `k`.
#[inline(always)]
fn round_undone(keys: &SerpentKeys, r: usize, k: usize, x: [u32; 4]) -> [u32; 4]
    requires within { r < 31 }
    requires through { k % 8 ≡ r % 8 }
    ensures { (end : List ℕ) (m n : ℕ) → m + r ≡ 30 → n ≡ m + 1 → x ≡ inverse_rounds keys.now.k end m
        → result ≡ inverse_rounds keys.now.k end n }
{
    with_key(keys, r, unboxed(k, unmix(x)))
}
