//! The rounds on eight states side by side, counted as on one state.
ghost use Rattle.std.specs.Prelude.{◌≡◌, ◌<◌, ◌≤◌, ◌+◌, ◌-◌, ◌%◌, List, ℕ, length};
ghost use Rattle.vc_base.specs.Bytes.{in_pieces};
ghost use Rattle.lane_kernels.specs.SerpentRounds.{rounds, inverse_rounds, cipher, inverse_cipher};
ghost use Rattle.lane_kernels.specs.Laws.Lanes.{AreLanes, lane};

use crate::gather::{gather, scatter};
use crate::lane_steps::{boxed, mix, unboxed, unmix, with_key};
use crate::serpent::SerpentKeys;
use std::simd::prelude::*;

/// Enciphers eight blocks in place.
pub fn encipher_eight(keys: &SerpentKeys, group: &mut [u8])
    requires { length group.old ≡ 128 }
    ensures { group.new ≡ in_pieces 16 (λ _ b. cipher keys.now.k b) group.old }
{
    let mut x = gather(group);
    for i in 0..3 {
        let y = seven_rounds(keys, 8 * i, x);
        x = round(keys, 8 * i + 7, 7, y);
    }
    let y = seven_rounds(keys, 24, x);
    let last = boxed(7, with_key(keys, 31, y));
    scatter(with_key(keys, 32, last), group);
}

/// Deciphers eight blocks in place.
pub fn decipher_eight(keys: &SerpentKeys, group: &mut [u8])
    requires { length group.old ≡ 128 }
    ensures { group.new ≡ in_pieces 16 (λ _ b. inverse_cipher keys.now.k b) group.old }
{
    let last = unboxed(7, with_key(keys, 32, gather(group)));
    let mut x = seven_rounds_undone(keys, 24, with_key(keys, 31, last));
    for i in (0..3).rev() {
        let y = round_undone(keys, 8 * i + 7, 7, x);
        x = seven_rounds_undone(keys, 8 * i, y);
    }
    scatter(x, group);
}

#[inline(always)]
fn seven_rounds(keys: &SerpentKeys, first: usize, x: [u32x8; 4]) -> [u32x8; 4]
    requires from_box_0 { first % 8 ≡ 0 }
    requires within { first ≤ 24 }
    requires lanes { AreLanes x }
    ensures lanes { AreLanes result }
    ensures done { (j : ℕ) (start : List ℕ) → j < 8 → lane j x ≡ rounds keys.now.k start first
        → lane j result ≡ rounds keys.now.k start (first + 7) }
{
    let x = round(keys, first, 0, x);
    let x = round(keys, first + 1, 1, x);
    let x = round(keys, first + 2, 2, x);
    let x = round(keys, first + 3, 3, x);
    let x = round(keys, first + 4, 4, x);
    let x = round(keys, first + 5, 5, x);
    round(keys, first + 6, 6, x)
}

#[inline(always)]
fn seven_rounds_undone(keys: &SerpentKeys, first: usize, x: [u32x8; 4]) -> [u32x8; 4]
    requires to_box_0 { first % 8 ≡ 0 }
    requires within { first ≤ 24 }
    requires lanes { AreLanes x }
    ensures lanes { AreLanes result }
    ensures undone { (j : ℕ) (end : List ℕ) → j < 8
        → lane j x ≡ inverse_rounds keys.now.k end (24 - first)
        → lane j result ≡ inverse_rounds keys.now.k end (31 - first) }
{
    let x = round_undone(keys, first + 6, 6, x);
    let x = round_undone(keys, first + 5, 5, x);
    let x = round_undone(keys, first + 4, 4, x);
    let x = round_undone(keys, first + 3, 3, x);
    let x = round_undone(keys, first + 2, 2, x);
    let x = round_undone(keys, first + 1, 1, x);
    round_undone(keys, first, 0, x)
}

#[inline(always)]
fn round(keys: &SerpentKeys, r: usize, k: usize, x: [u32x8; 4]) -> [u32x8; 4]
    requires within { r < 31 }
    requires through { k % 8 ≡ r % 8 }
    requires lanes { AreLanes x }
    ensures lanes { AreLanes result }
    ensures done { (j : ℕ) (start : List ℕ) (n : ℕ) → j < 8 → n ≡ r + 1
        → lane j x ≡ rounds keys.now.k start r → lane j result ≡ rounds keys.now.k start n }
{
    mix(boxed(k, with_key(keys, r, x)))
}

#[inline(always)]
fn round_undone(keys: &SerpentKeys, r: usize, k: usize, x: [u32x8; 4]) -> [u32x8; 4]
    requires within { r < 31 }
    requires through { k % 8 ≡ r % 8 }
    requires lanes { AreLanes x }
    ensures lanes { AreLanes result }
    ensures undone { (j : ℕ) (end : List ℕ) (m n : ℕ) → j < 8 → m + r ≡ 30 → n ≡ m + 1
        → lane j x ≡ inverse_rounds keys.now.k end m → lane j result ≡ inverse_rounds keys.now.k end n }
{
    with_key(keys, r, unboxed(k, unmix(x)))
}
