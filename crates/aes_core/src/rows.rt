//! ShiftRows (FIPS 197, 5.1.2), its inverse (5.3.1), and the rows moved up: moves of lanes that are the same
//! in each plane. A row is four lanes side by side, so rows move as words.
ghost use Rattle.std.specs.Prelude.{◌≡◌};
ghost use Rattle.aes_core.specs.Aes.{shift_rows, inverse_shift_rows};
ghost use Rattle.aes_core.specs.Laws.Planes.{ArePlanes, InEachBlock, row_below, two_rows_below};
ghost use Rattle.aes_core.specs.Laws.Planes.{lanes_left, lanes_right, lanes_up, lanes_up_two};

use std::simd::u8x16;

/// ShiftRows on eight blocks.
#[inline(always)]
pub fn shifted(x: [u8x16; 8]) -> [u8x16; 8]
    requires { ArePlanes x }
    ensures { InEachBlock shift_rows x result }
{
    let [a, b, c, d, e, f, g, h] = x;
    [
        left(a),
        left(b),
        left(c),
        left(d),
        left(e),
        left(f),
        left(g),
        left(h),
    ]
}

#[inline(always)]
fn left(plane: u8x16) -> u8x16
    ensures { result ≡ lanes_left plane }
{
    plane.swizzle([0, 1, 2, 3, 5, 6, 7, 4, 10, 11, 8, 9, 15, 12, 13, 14])
}

/// The inverse of ShiftRows on eight blocks.
#[inline(always)]
pub fn unshifted(x: [u8x16; 8]) -> [u8x16; 8]
    requires { ArePlanes x }
    ensures { InEachBlock inverse_shift_rows x result }
{
    let [a, b, c, d, e, f, g, h] = x;
    [
        right(a),
        right(b),
        right(c),
        right(d),
        right(e),
        right(f),
        right(g),
        right(h),
    ]
}

#[inline(always)]
fn right(plane: u8x16) -> u8x16
    ensures { result ≡ lanes_right plane }
{
    plane.swizzle([0, 1, 2, 3, 7, 4, 5, 6, 10, 11, 8, 9, 13, 14, 15, 12])
}

/// The byte below each byte in its column. Below the last row is the first.
#[inline(always)]
pub fn one_below(x: [u8x16; 8]) -> [u8x16; 8]
    requires { ArePlanes x }
    ensures { InEachBlock row_below x result }
{
    let [a, b, c, d, e, f, g, h] = x;
    [up(a), up(b), up(c), up(d), up(e), up(f), up(g), up(h)]
}

#[inline(always)]
fn up(plane: u8x16) -> u8x16
    ensures { result ≡ lanes_up plane }
{
    plane.swizzle([4, 5, 6, 7, 8, 9, 10, 11, 12, 13, 14, 15, 0, 1, 2, 3])
}

/// The byte two below each byte in its column.
#[inline(always)]
pub fn two_below(x: [u8x16; 8]) -> [u8x16; 8]
    requires { ArePlanes x }
    ensures { InEachBlock two_rows_below x result }
{
    let [a, b, c, d, e, f, g, h] = x;
    [
        up_two(a),
        up_two(b),
        up_two(c),
        up_two(d),
        up_two(e),
        up_two(f),
        up_two(g),
        up_two(h),
    ]
}

#[inline(always)]
fn up_two(plane: u8x16) -> u8x16
    ensures { result ≡ lanes_up_two plane }
{
    plane.swizzle([8, 9, 10, 11, 12, 13, 14, 15, 0, 1, 2, 3, 4, 5, 6, 7])
}
