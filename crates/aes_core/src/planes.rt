//! Eight blocks as bit planes, and back. A row here is 16 bytes of a group of 128, before they are planes.
//!
//! ```text
//!           lane 0             lane 15
//! plane i:  [7 6 5 4 3 2 1 0]  ..  [7 6 5 4 3 2 1 0]     eight bits a lane, of blocks 7 to 0
//! ```
//!
//! Lane 4r + c belongs to row r and column c of the eight states, and bit k of it to block k: in plane i
//! it is bit i of that byte. So an operation on whole planes does the same to each byte of the eight
//! blocks. A block has its bytes column by column, so it is turned before its bits become planes.
ghost use Rattle.std.specs.Prelude.{◌≡◌, ◌<◌, ℕ, length, slice_index_or, []};
ghost use Rattle.vc_base.specs.Bytes.{IsBytes, joined};
ghost use Rattle.aes_core.specs.Laws.Planes.{ArePlanes, Added, rows, by_rows, Transposed, IsExchange, Exchanged};

use std::simd::u8x16;

/// The rows of 16 bytes that a group of 128 bytes has.
#[inline(always)]
pub fn gather(group: &[u8]) -> [u8x16; 8]
    requires { length group.now ≡ 128 }
    ensures planes { ArePlanes result }
    ensures rows { result ≡ rows group.now }
{
    let (rows, _) = group.as_chunks::<16>();
    [
        u8x16::from_array(rows[0]),
        u8x16::from_array(rows[1]),
        u8x16::from_array(rows[2]),
        u8x16::from_array(rows[3]),
        u8x16::from_array(rows[4]),
        u8x16::from_array(rows[5]),
        u8x16::from_array(rows[6]),
        u8x16::from_array(rows[7]),
    ]
}

/// Writes eight rows, one after the other.
#[inline(always)]
pub fn scatter(x: [u8x16; 8], group: &mut [u8])
    requires group { length group.old ≡ 128 }
    requires planes { ArePlanes x }
    ensures { group.new ≡ joined (λ j. slice_index_or x j []) 8 }
{
    for j in 0..8 {
        group[16 * j..16 * j + 16].copy_from_slice(&x[j].to_array());
    }
}

/// Each row turned: its byte r + 4c goes to place 4r + c. It is its own inverse.
#[inline(always)]
pub fn rows_turned(x: [u8x16; 8]) -> [u8x16; 8]
    requires { ArePlanes x }
    ensures planes { ArePlanes result }
    ensures each { (k : ℕ) → k < 8 → slice_index_or result k [] ≡ by_rows (slice_index_or x k []) }
{
    let [a, b, c, d, e, f, g, h] = x;
    [
        turn(a),
        turn(b),
        turn(c),
        turn(d),
        turn(e),
        turn(f),
        turn(g),
        turn(h),
    ]
}

/// A row, turned.
#[inline(always)]
pub fn turn(row: u8x16) -> u8x16
    ensures { result ≡ by_rows row }
{
    row.swizzle([0, 4, 8, 12, 1, 5, 9, 13, 2, 6, 10, 14, 3, 7, 11, 15])
}

/// The planes of eight blocks, which come as turned rows. It is its own inverse: it makes turned rows of
/// planes.
#[inline(always)]
pub fn transposed(x: [u8x16; 8]) -> [u8x16; 8]
    requires { ArePlanes x }
    ensures { Transposed x result }
{
    let [a, b, c, d, e, f, g, h] = x;
    let (a, b) = exchanged(1, 0x55, a, b);
    let (c, d) = exchanged(1, 0x55, c, d);
    let (e, f) = exchanged(1, 0x55, e, f);
    let (g, h) = exchanged(1, 0x55, g, h);
    let (a, c) = exchanged(2, 0x33, a, c);
    let (b, d) = exchanged(2, 0x33, b, d);
    let (e, g) = exchanged(2, 0x33, e, g);
    let (f, h) = exchanged(2, 0x33, f, h);
    let (a, e) = exchanged(4, 0x0f, a, e);
    let (b, f) = exchanged(4, 0x0f, b, f);
    let (c, g) = exchanged(4, 0x0f, c, g);
    let (d, h) = exchanged(4, 0x0f, d, h);
    [a, b, c, d, e, f, g, h]
}

// Two rows exchange bits: those of `a` whose place has the part `by`, with those of `b` `by` places lower.
#[inline(always)]
fn exchanged(by: u8, mask: u8, a: u8x16, b: u8x16) -> (u8x16, u8x16)
    requires positive { 0 < by }
    requires within { by < 8 }
    requires mask { IsExchange by mask }
    requires left { IsBytes 16 a }
    requires right { IsBytes 16 b }
    ensures { Exchanged by a b result.0 result.1 }
{
    let differing = ((a >> u8x16::splat(by)) ^ b) & u8x16::splat(mask);
    (a ^ (differing << u8x16::splat(by)), b ^ differing)
}

/// The XOR of two groups, block by block.
#[inline(always)]
pub fn added(x: [u8x16; 8], y: [u8x16; 8]) -> [u8x16; 8]
    requires left { ArePlanes x }
    requires right { ArePlanes y }
    ensures { Added x y result }
{
    let [a, b, c, d, e, f, g, h] = x;
    let [p, q, r, s, t, u, v, w] = y;
    [a ^ p, b ^ q, c ^ r, d ^ s, e ^ t, f ^ u, g ^ v, h ^ w]
}
