//! The steps of a round on eight states side by side. Boxes are counted modulo 8.
ghost use Rattle.std.specs.Prelude.{◌≡◌, ◌<◌};
ghost use Rattle.lane_kernels.specs.SerpentRounds.{entry, inverse_entry, substituted, linear, inverse_linear, add_key, add_words};
ghost use Rattle.lane_kernels.specs.Laws.Lanes.{AreLanes, InEachLane};

use crate::formulas::{
    i0, i1, i2, i3, i4, i5, i6, i7, inverse_linear, linear, s0, s1, s2, s3, s4, s5, s6, s7,
};
use crate::serpent::SerpentKeys;
use std::simd::prelude::*;

/// Round key `r`, added.
#[inline(always)]
pub fn with_key(keys: &SerpentKeys, r: usize, x: [u32x8; 4]) -> [u32x8; 4]
    requires round { r < 33 }
    requires lanes { AreLanes x }
    ensures { InEachLane (add_key keys.now.k r) x result }
{
    with_words(keys.k[r], x)
}

// Four words, added to each state.
#[inline(always)]
fn with_words(key: [u32; 4], x: [u32x8; 4]) -> [u32x8; 4]
    requires { AreLanes x }
    ensures { InEachLane (add_words key) x result }
{
    let [a, b, c, d] = x;
    let [k, l, m, n] = key;
    [
        a ^ u32x8::splat(k),
        b ^ u32x8::splat(l),
        c ^ u32x8::splat(m),
        d ^ u32x8::splat(n),
    ]
}

/// S-box `k`.
#[inline(always)]
pub fn boxed(k: usize, x: [u32x8; 4]) -> [u32x8; 4]
    requires { AreLanes x }
    ensures { InEachLane (substituted (entry k)) x result }
{
    match k % 8 {
        0 => s0!(x),
        1 => s1!(x),
        2 => s2!(x),
        3 => s3!(x),
        4 => s4!(x),
        5 => s5!(x),
        6 => s6!(x),
        _ => s7!(x),
    }
}

/// The inverse of S-box `k`.
#[inline(always)]
pub fn unboxed(k: usize, x: [u32x8; 4]) -> [u32x8; 4]
    requires { AreLanes x }
    ensures { InEachLane (substituted (inverse_entry k)) x result }
{
    match k % 8 {
        0 => i0!(x),
        1 => i1!(x),
        2 => i2!(x),
        3 => i3!(x),
        4 => i4!(x),
        5 => i5!(x),
        6 => i6!(x),
        _ => i7!(x),
    }
}

/// The linear transformation.
#[inline(always)]
pub fn mix(x: [u32x8; 4]) -> [u32x8; 4]
    requires { AreLanes x }
    ensures { InEachLane linear x result }
{
    linear!(x)
}

/// The inverse of the linear transformation.
#[inline(always)]
pub fn unmix(x: [u32x8; 4]) -> [u32x8; 4]
    requires { AreLanes x }
    ensures { InEachLane inverse_linear x result }
{
    inverse_linear!(x)
}
