//! MixColumns (FIPS 197, 5.1.3) and its inverse (5.3.3) on bit planes.
//!
//! With s the state, t the bytes below it and d their sum, a mixed column is 2d + t and what is two
//! below of d. The inverse mixes s + 4(s + two below) in the same way: the matrix of MixColumns is of
//! order four, and its square has 5, 0, 4 and 0 in its first row.
ghost use Rattle.aes_core.specs.Aes.{mix_columns, inverse_mix_columns};
ghost use Rattle.aes_core.specs.Laws.Planes.{ArePlanes, InEachBlock, multiplied};

use crate::planes::added;
use crate::rows::{one_below, two_below};
use std::simd::u8x16;

/// MixColumns on eight blocks.
#[inline(always)]
pub fn mixed(x: [u8x16; 8]) -> [u8x16; 8]
    requires { ArePlanes x }
    ensures { InEachBlock mix_columns x result }
{
    let below = one_below(x);
    let sums = added(x, below);
    added(added(doubled(sums), below), two_below(sums))
}

/// The inverse of MixColumns on eight blocks.
#[inline(always)]
pub fn unmixed(x: [u8x16; 8]) -> [u8x16; 8]
    requires { ArePlanes x }
    ensures { InEachBlock inverse_mix_columns x result }
{
    mixed(added(x, quadrupled(added(x, two_below(x)))))
}

// Each byte times x, modulo x^8 + x^4 + x^3 + x + 1.
#[inline(always)]
fn doubled(x: [u8x16; 8]) -> [u8x16; 8]
    requires { ArePlanes x }
    ensures { InEachBlock (multiplied 2) x result }
{
    let [b0, b1, b2, b3, b4, b5, b6, b7] = x;
    let g1 = b0 ^ b7;
    let g2 = b2 ^ b7;
    let g3 = b3 ^ b7;
    [b7, g1, b1, g2, g3, b4, b5, b6]
}

// Each byte times x^2.
#[inline(always)]
fn quadrupled(x: [u8x16; 8]) -> [u8x16; 8]
    requires { ArePlanes x }
    ensures { InEachBlock (multiplied 4) x result }
{
    let [b0, b1, b2, b3, b4, b5, b6, b7] = x;
    let g1 = b6 ^ b7;
    let g2 = b0 ^ b7;
    let g3 = b1 ^ b6;
    let g4 = b2 ^ g1;
    let g5 = b3 ^ b7;
    [b6, g1, g2, g3, g4, g5, b4, b5]
}
