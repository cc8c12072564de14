//! The inverse S-box (FIPS 197, 5.3.2) on bit planes, as a circuit of 109 gates.
//!
//! It is made as that of `sbox`, with the inverse of the affine transformation before the inverse in
//! GF(2^8).
ghost use Rattle.aes_core.specs.Aes.{inverse_sub_bytes};
ghost use Rattle.aes_core.specs.Laws.Planes.{ArePlanes, InEachBlock};

use std::simd::u8x16;

/// The inverse of SubBytes on eight blocks.
#[inline(always)]
pub fn unsubstituted(x: [u8x16; 8]) -> [u8x16; 8]
    requires { ArePlanes x }
    ensures { InEachBlock inverse_sub_bytes x result }
{
    let [b0, b1, b2, b3, b4, b5, b6, b7] = x;
    let ones = u8x16::splat(0xff);
    let g1 = b0 ^ ones;
    let g2 = b1 ^ ones;
    let g3 = b5 ^ ones;
    let g4 = b6 ^ ones;
    let g5 = g3 ^ b7;
    let g6 = g1 ^ b4;
    let g7 = g2 ^ b2;
    let g8 = g1 ^ g3;
    let g9 = g4 ^ g5;
    let g10 = b3 ^ g3;
    let g11 = g6 ^ g7;
    let g12 = g2 ^ g8;
    let g13 = g9 ^ g10;
    let g14 = g5 ^ g6;
    let g15 = g2 ^ b7;
    let g16 = g8 ^ g11;
    let g17 = g15 ^ g16;
    let g18 = g13 ^ g17;
    let g19 = g9 ^ g14;
    let g20 = b2 ^ g16;
    let g21 = g14 ^ g18;
    let g22 = g10 ^ g21;
    let g23 = g10 | g2;
    let g24 = g22 & g8;
    let g25 = g21 | g12;
    let g26 = g9 & g7;
    let g27 = g19 & g11;
    let g28 = g14 & g6;
    let g29 = g13 & b2;
    let g30 = g17 & g16;
    let g31 = g18 | g20;
    let g32 = g30 ^ g31;
    let g33 = g29 ^ g30;
    let g34 = g15 ^ g28;
    let g35 = g27 ^ g34;
    let g36 = g35 ^ g33;
    let g37 = g28 ^ g26;
    let g38 = g37 ^ g32;
    let g39 = g33 ^ g25;
    let g40 = g24 ^ g39;
    let g41 = g5 ^ g23;
    let g42 = g41 ^ g32;
    let g43 = g25 ^ g42;
    let g44 = g38 & g43;
    let g45 = g36 ^ g38;
    let g46 = g44 ^ g40;
    let g47 = g45 & g46;
    let g48 = g44 ^ g47;
    let g49 = g36 & g48;
    let g50 = g40 ^ g43;
    let g51 = g36 ^ g44;
    let g52 = g50 & g51;
    let g53 = g52 ^ g46;
    let g54 = g40 & g53;
    let g55 = g54 ^ g50;
    let g56 = g52 ^ g40;
    let g57 = g49 ^ g38;
    let g58 = g47 ^ g36;
    let g59 = g56 ^ g55;
    let g60 = g58 ^ g57;
    let g61 = g57 ^ g55;
    let g62 = g60 ^ g59;
    let g63 = g62 ^ g61;
    let g64 = g60 & g2;
    let g65 = g58 & g8;
    let g66 = g57 & g12;
    let g67 = g59 & g7;
    let g68 = g56 & g11;
    let g69 = g55 & g6;
    let g70 = g62 & b2;
    let g71 = g63 & g16;
    let g72 = g61 & g20;
    let g73 = g60 & g10;
    let g74 = g58 & g22;
    let g75 = g57 & g21;
    let g76 = g59 & g9;
    let g77 = g56 & g19;
    let g78 = g55 & g14;
    let g79 = g62 & g13;
    let g80 = g63 & g17;
    let g81 = g61 & g18;
    let g82 = g66 ^ g71;
    let g83 = g69 ^ g71;
    let g84 = g77 ^ g79;
    let g85 = g70 ^ g84;
    let g86 = g72 ^ g64;
    let g87 = g73 ^ g81;
    let g88 = g76 ^ g81;
    let g89 = g88 ^ g85;
    let g90 = g74 ^ g87;
    let g91 = g79 ^ g90;
    let g92 = g65 ^ g89;
    let g93 = g75 ^ g86;
    let g94 = g87 ^ g93;
    let g95 = g94 ^ g92;
    let g96 = g80 ^ g95;
    let g97 = g78 ^ g85;
    let g98 = g97 ^ g95;
    let g99 = g68 ^ g83;
    let g100 = g99 ^ g96;
    let g101 = g67 ^ g72;
    let g102 = g101 ^ g83;
    let g103 = g91 ^ g102;
    let g104 = g82 ^ g92;
    let g105 = g103 ^ g96;
    let g106 = g89 ^ g100;
    let g107 = g70 ^ g98;
    let g108 = g98 ^ g100;
    let g109 = g86 ^ g82;
    [g104, g105, g106, g107, g103, g91, g108, g109]
}
