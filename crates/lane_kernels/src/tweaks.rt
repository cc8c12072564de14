//! What XTS does around a cipher's call: a run of tweaks, and masks.
//!
//! A tweak is 16 bytes, a polynomial over GF(2) whose bit i of byte b is the coefficient of
//! x^(8b + i). Alpha is x, modulo x^128 + x^7 + x^2 + x + 1. A run doubles its tweak in two words of 64
//! bits, which takes an eighth of the time that 16 bytes take.
ghost use Rattle.std.specs.Prelude.{◌≡◌, ◌+◌, ◌*◌, ◌^◌, length};
ghost use Rattle.vc_base.specs.Bytes.{joined, xor_bytes, from_bytes, to_bytes};
ghost use Rattle.vc_base.specs.Polynomial.{reduced};
ghost use Rattle.cipher_base.specs.Field.{times_power, xts_polynomial};

/// Writes the tweaks of 32 blocks, of which the first is `t`: block j is `t` times alpha to the j.
pub fn tweak_run(t: &[u8; 16], out: &mut [u8; 512])
    ensures { out.new ≡ joined (λ j. times_power j t.now) 32 }
{
    let (mut low, mut high) = words(t);
    for i in 0..32 {
        write_words(&mut out[16 * i..16 * i + 16], low, high);
        (low, high) = doubled(low, high);
    }
}

/// Adds the bytes of `b` to those of `a`: each byte becomes the XOR of the two.
pub fn xor_into(a: &mut [u8], b: &[u8])
    requires { length a.old ≡ length b.now }
    ensures { a.new ≡ xor_bytes a.old b.now }
{
    for i in 0..a.len() {
        a[i] ^= b[i];
    }
}

// 16 bytes as two words, the lower first.
fn words(t: &[u8; 16]) -> (u64, u64)
    ensures { result.0 + 2 ^ 64 * result.1 ≡ from_bytes t.now }
{
    let [a, b, c, d, e, f, g, h, i, j, k, l, m, n, o, p] = *t;
    (
        u64::from_le_bytes([a, b, c, d, e, f, g, h]),
        u64::from_le_bytes([i, j, k, l, m, n, o, p]),
    )
}

// Two words as 16 bytes, the lowest first.
fn write_words(block: &mut [u8], low: u64, high: u64)
    requires { length block.old ≡ 16 }
    ensures { block.new ≡ to_bytes 16 (low + 2 ^ 64 * high) }
{
    block[..8].copy_from_slice(&low.to_le_bytes());
    block[8..].copy_from_slice(&high.to_le_bytes());
}

// Two words times alpha: x^128 is x^7 + x^2 + x + 1.
fn doubled(low: u64, high: u64) -> (u64, u64)
    ensures { result.0 + 2 ^ 64 * result.1 ≡ reduced 128 xts_polynomial (2 * (low + 2 ^ 64 * high)) }
{
    let top = high >> 63;
    (
        (low << 1) ^ top.wrapping_mul(0x87),
        (high << 1) | (low >> 63),
    )
}

#[cfg(test)]
mod tests {
    use super::*;

    // Of 1, block j has bit j alone. Of x^127, block 0 has the highest bit alone, and block j + 1 is
    // 87 times x^j.
    #[test]
    fn runs_double_their_tweak(rt: HostRuntime) {
        let mut one = [0; 16];
        one[0] = 1;
        let mut highest = [0; 16];
        highest[15] = 0x80;
        let mut of_one = [0xff; 512];
        let mut of_highest = [0xff; 512];
        tweak_run(&one, &mut of_one);
        tweak_run(&highest, &mut of_highest);
        for (block, at, byte) in [(0, 0, 0x01), (1, 0, 0x02), (8, 1, 0x01), (31, 3, 0x80)] {
            let mut want = [0; 16];
            want[at] = byte;
            assert!(rt;
                &of_one[16 * block..16 * block + 16] == want.as_slice(),
                "{block}"
            );
        }
        assert!(rt; &of_highest[..16] == highest.as_slice());
        for (block, first, second) in [(1, 0x87, 0x00), (2, 0x0e, 0x01), (8, 0x80, 0x43)] {
            let mut want = [0; 16];
            want[0] = first;
            want[1] = second;
            assert!(rt;
                &of_highest[16 * block..16 * block + 16] == want.as_slice(),
                "{block}"
            );
        }
    }

    #[test]
    fn masks_of_any_length_are_added(rt: HostRuntime) {
        for len in [0, 1, 16, 17, 64] {
            let mut bytes = [0x0f; 64];
            xor_into(&mut bytes[..len], &[0xff; 64][..len]);
            for i in 0..64 {
                let want = if i < len { 0xf0 } else { 0x0f };
                assert!(rt; bytes[i] == want, "{i} of {len}");
            }
        }
    }
}
