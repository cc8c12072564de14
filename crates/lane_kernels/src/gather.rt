//! Eight blocks as eight states side by side, and back.
ghost use Rattle.std.specs.Prelude.{◌≡◌, ◌<◌, ℕ, length};
ghost use Rattle.vc_base.specs.Bytes.{joined, piece};
ghost use Rattle.vc_base.specs.Words.{words_of, block_of};
ghost use Rattle.lane_kernels.specs.Laws.Lanes.{AreLanes, lane};

use crate::words::{bytes, words};
use std::simd::prelude::*;

/// The states that eight blocks spell. Lane j is that of block j.
#[inline(always)]
pub fn gather(group: &[u8]) -> [u32x8; 4]
    requires { length group.now ≡ 128 }
    ensures lanes { AreLanes result }
    ensures states { (j : ℕ) → j < 8 → lane j result ≡ words_of (piece 16 j group.now) }
{
    let mut a = [0; 8];
    let mut b = [0; 8];
    let mut c = [0; 8];
    let mut d = [0; 8];
    for j in 0..8 {
        let mut block = [0; 16];
        block.copy_from_slice(&group[16 * j..16 * j + 16]);
        let [p, q, r, s] = words(block);
        a[j] = p;
        b[j] = q;
        c[j] = r;
        d[j] = s;
    }
    [
        u32x8::from_array(a),
        u32x8::from_array(b),
        u32x8::from_array(c),
        u32x8::from_array(d),
    ]
}

/// Writes the blocks that spell eight states.
#[inline(always)]
pub fn scatter(x: [u32x8; 4], group: &mut [u8])
    requires { length group.old ≡ 128 }
    ensures { group.new ≡ joined (λ j. block_of (lane j x)) 8 }
{
    let [a, b, c, d] = x;
    let (a, b, c, d) = (a.to_array(), b.to_array(), c.to_array(), d.to_array());
    for j in 0..8 {
        group[16 * j..16 * j + 16].copy_from_slice(&bytes([a[j], b[j], c[j], d[j]]));
    }
}
