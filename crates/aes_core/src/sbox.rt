//! The S-box (FIPS 197, 5.1.1) on bit planes, as a circuit of 105 gates.
//!
//! It takes the inverse in GF(2^8) as in a tower of quadratic extensions, GF(((2^2)^2)^2) with normal
//! bases: one product and one inverse in GF(2^4), and two more products. The sums before and after
//! them, the affine transformation among them, are shared as far as a search found.
ghost use Rattle.aes_core.specs.Aes.{sub_bytes};
ghost use Rattle.aes_core.specs.Laws.Planes.{ArePlanes, InEachBlock};

use std::simd::u8x16;

/// SubBytes on eight blocks.
#[inline(always)]
pub fn substituted(x: [u8x16; 8]) -> [u8x16; 8]
    requires { ArePlanes x }
    ensures { InEachBlock sub_bytes x result }
{
    let [b0, b1, b2, b3, b4, b5, b6, b7] = x;
    let ones = u8x16::splat(0xff);
    let g1 = b0 ^ b2;
    let g2 = b3 ^ b6;
    let g3 = g1 ^ g2;
    let g4 = b7 ^ g3;
    let g5 = b1 ^ g4;
    let g6 = b5 ^ g4;
    let g7 = b4 ^ g6;
    let g8 = b2 ^ g5;
    let g9 = g6 ^ g8;
    let g10 = b0 ^ g9;
    let g11 = b7 ^ g7;
    let g12 = b3 ^ g11;
    let g13 = g7 ^ g10;
    let g14 = g8 ^ g12;
    let g15 = b6 ^ g9;
    let g16 = g4 ^ g10;
    let g17 = g12 ^ g15;
    let g18 = g11 ^ g16;
    let g19 = b6 ^ g14;
    let g20 = g13 & g19;
    let g21 = g10 | g6;
    let g22 = g7 | g17;
    let g23 = g3 | b6;
    let g24 = g4 & g9;
    let g25 = b7 & g15;
    let g26 = g18 & g14;
    let g27 = g16 | g8;
    let g28 = g11 | g12;
    let g29 = g25 ^ g27;
    let g30 = g27 ^ g22;
    let g31 = g5 ^ g24;
    let g32 = g31 ^ g26;
    let g33 = g29 ^ g32;
    let g34 = g23 ^ g28;
    let g35 = g34 ^ g29;
    let g36 = g21 ^ g30;
    let g37 = g26 ^ g36;
    let g38 = g1 ^ g28;
    let g39 = g38 ^ g30;
    let g40 = g20 ^ g39;
    let g41 = g33 & g37;
    let g42 = g40 ^ g41;
    let g43 = g42 ^ g37;
    let g44 = g35 & g43;
    let g45 = g44 ^ g33;
    let g46 = g42 & g45;
    let g47 = g33 ^ g35;
    let g48 = g41 ^ g44;
    let g49 = g47 & g48;
    let g50 = g47 ^ g42;
    let g51 = g40 & g50;
    let g52 = g47 ^ g44;
    let g53 = g49 ^ g33;
    let g54 = g51 ^ g46;
    let g55 = g51 ^ g37;
    let g56 = g55 ^ g54;
    let g57 = g53 ^ g52;
    let g58 = g57 ^ g54;
    let g59 = g56 ^ g53;
    let g60 = g55 ^ g52;
    let g61 = g52 & g19;
    let g62 = g53 & g6;
    let g63 = g57 & g17;
    let g64 = g55 & b6;
    let g65 = g56 & g9;
    let g66 = g54 & g15;
    let g67 = g60 & g14;
    let g68 = g59 & g8;
    let g69 = g58 & g12;
    let g70 = g52 & g13;
    let g71 = g53 & g10;
    let g72 = g57 & g7;
    let g73 = g55 & g3;
    let g74 = g56 & g4;
    let g75 = g54 & b7;
    let g76 = g60 & g18;
    let g77 = g59 & g16;
    let g78 = g58 & g11;
    let g79 = g76 ^ ones;
    let g80 = g79 ^ g77;
    let g81 = g71 ^ g72;
    let g82 = g81 ^ g80;
    let g83 = g64 ^ g69;
    let g84 = g67 ^ g82;
    let g85 = g65 ^ g83;
    let g86 = g85 ^ g84;
    let g87 = g75 ^ g80;
    let g88 = g61 ^ g69;
    let g89 = g74 ^ g87;
    let g90 = g82 ^ g89;
    let g91 = g63 ^ g88;
    let g92 = g70 ^ g71;
    let g93 = g92 ^ g86;
    let g94 = g76 ^ g78;
    let g95 = g94 ^ g93;
    let g96 = g66 ^ g83;
    let g97 = g91 ^ g96;
    let g98 = g73 ^ g87;
    let g99 = g98 ^ g93;
    let g100 = g62 ^ g88;
    let g101 = g100 ^ g84;
    let g102 = g90 ^ g101;
    let g103 = g68 ^ ones;
    let g104 = g103 ^ g91;
    let g105 = g104 ^ g86;
    [g95, g82, g90, g97, g99, g86, g102, g105]
}
