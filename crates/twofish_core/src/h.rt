//! The function h of a word under four words (Twofish, 4.3.2), a byte at a time.
//!
//! Byte i goes alone through its permutations and becomes a word by column i of MDS. The result is
//! the XOR of the four.
ghost use Rattle.std.specs.Prelude.{◌≡◌, ◌<◌};
ghost use Rattle.twofish_core.specs.Twofish.{h};
ghost use Rattle.twofish_core.specs.Laws.Columns.{across, added_0, added_1, added_2, added_3};

use crate::columns::{column_0, column_1, column_2, column_3};
use crate::permutations::{q0, q1};

/// The function h of a word under a list of four.
pub fn h(x: u32, l: [u32; 4]) -> u32
    ensures { result ≡ h x l }
{
    let [x0, x1, x2, x3] = x.to_le_bytes();
    let low = from_byte_0(x0, l) ^ from_byte_1(x1, l);
    let high = from_byte_2(x2, l) ^ from_byte_3(x3, l);
    low ^ high
}

/// What the lowest byte of a word adds to h under a list of four words.
pub fn from_byte_0(x: u8, l: [u32; 4]) -> u32
    ensures { result ≡ added_0 l x }
{
    let [a, b, c, d] = across(l, 0);
    column_0(q0(q0(q1(q1(x) ^ d) ^ c) ^ b) ^ a)
}

/// What byte 1 adds.
pub fn from_byte_1(x: u8, l: [u32; 4]) -> u32
    ensures { result ≡ added_1 l x }
{
    let [a, b, c, d] = across(l, 1);
    column_1(q0(q1(q1(q0(x) ^ d) ^ c) ^ b) ^ a)
}

/// What byte 2 adds.
pub fn from_byte_2(x: u8, l: [u32; 4]) -> u32
    ensures { result ≡ added_2 l x }
{
    let [a, b, c, d] = across(l, 2);
    column_2(q1(q0(q0(q0(x) ^ d) ^ c) ^ b) ^ a)
}

/// What the highest byte adds.
pub fn from_byte_3(x: u8, l: [u32; 4]) -> u32
    ensures { result ≡ added_3 l x }
{
    let [a, b, c, d] = across(l, 3);
    column_3(q1(q1(q0(q1(x) ^ d) ^ c) ^ b) ^ a)
}

// Byte i of each of four words.
fn across(l: [u32; 4], i: usize) -> [u8; 4]
    requires { i < 4 }
    ensures { result ≡ across i l }
{
    [
        l[0].to_le_bytes()[i],
        l[1].to_le_bytes()[i],
        l[2].to_le_bytes()[i],
        l[3].to_le_bytes()[i],
    ]
}
