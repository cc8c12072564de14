//! XTS over a cipher that swaps the halves of a block, so that a tweak stays visible: P becomes
//! swap(P) ^ swap(T_j) ^ T_j, and T_0 has the unit number in its upper half.
ghost use Rattle.std.specs.Prelude.{◌≡◌, ◌++◌, take, drop};
ghost use Rattle.std.proofs.Common.{ap₂, ◌∙◌, lit≤};
ghost use Rattle.std.proofs.lemmas.List.{take_at, drop_at, take-append-drop};
ghost use Rattle.vc_base.proofs.Bytes.{IsBytes-append, IsBytes-take, IsBytes-drop};

use super::*;

#[derive(Clone, Copy)]
struct Swap;

impl BlockCipher for Swap {
    ghost enciphered = { λ _ b. drop 8 b ++ take 8 b };

    ghost deciphered = { λ _ b. drop 8 b ++ take 8 b };

    fn encipher(&self, block: &mut [u8; 16]) {
        block.rotate_left(8);
    }

    fn decipher(&self, block: &mut [u8; 16]) {
        block.rotate_left(8);
    }

    ghost enciphered_is_block = { λ _ b h.
        IsBytes-append 8 8 (drop 8 b) (take 8 b) (IsBytes-drop 16 8 b h) (IsBytes-take 16 8 b h (lit≤ tt)) };

    ghost deciphered_is_block = { λ _ b h.
        IsBytes-append 8 8 (drop 8 b) (take 8 b) (IsBytes-drop 16 8 b h) (IsBytes-take 16 8 b h (lit≤ tt)) };

    ghost deciphers = { λ _ b h. ap₂ ◌++◌
        (drop_at (drop 8 b) (take 8 b) 8 (IsBytes-drop 16 8 b h).count)
        (take_at (drop 8 b) (take 8 b) 8 (IsBytes-drop 16 8 b h).count)
        ∙ take-append-drop 8 b };

    ghost enciphers = { λ _ b h. ap₂ ◌++◌
        (drop_at (drop 8 b) (take 8 b) 8 (IsBytes-drop 16 8 b h).count)
        (take_at (drop 8 b) (take 8 b) 8 (IsBytes-drop 16 8 b h).count)
        ∙ take-append-drop 8 b };
}

// Of unit 2^63, T_0 is x^127, whose swap is x^63, and T_1 is x^128, which is 87.
#[test]
fn whitens_each_block_with_its_tweak(rt: HostRuntime) {
    let cipher = Xts::new(Swap, Swap);
    let mut stretch = [0; 32];
    stretch[0] = 0x11;
    cipher.encipher_stretch(1 << 63, &mut stretch);
    let mut want = [0; 32];
    want[8] = 0x11;
    want[7] = 0x80;
    want[15] = 0x80;
    want[16] = 0x87;
    want[24] = 0x87;
    assert!(rt; stretch == want);
    cipher.decipher_stretch(1 << 63, &mut stretch);
    want = [0; 32];
    want[0] = 0x11;
    assert!(rt; stretch == want);
}

// Of unit 5, T_0 is 5 x^64, and T_31 is 5 x^95, which is x^95 + x^97. The next unit has the number 6.
#[test]
fn numbers_each_unit(rt: HostRuntime) {
    let cipher = Xts::new(Swap, Swap);
    let mut units = [0; 1024];
    cipher.encipher_units(5, &mut units);
    for (at, value) in [
        (0, 0x05),
        (1, 0x00),
        (8, 0x05),
        (499, 0x80),
        (500, 0x02),
        (507, 0x80),
        (508, 0x02),
        (512, 0x06),
        (520, 0x06),
    ] {
        assert_eq!(rt; units[at], value, "at {at}");
    }
    cipher.decipher_units(5, &mut units);
    assert!(rt; units == [0; 1024]);
}
