//! Products in the two fields.
ghost use Rattle.std.specs.Prelude.{◌≡◌, ◌+◌, ◌*◌, ◌^◌, ◌<◌, length};
ghost use Rattle.vc_base.specs.Bytes.{from_bytes, to_bytes};
ghost use Rattle.vc_base.specs.Polynomial.{product, reduced, times, coefficients, IsRemainder};
ghost use Rattle.cipher_base.specs.Field.{IsFieldPolynomial, times_power, xts_polynomial};

/// The product of two bytes in GF(2^8) modulo a polynomial of degree 8.
pub fn gf8_mul(a: u8, b: u8, poly: u16) -> u8
    requires { IsFieldPolynomial poly }
    ensures product { result ≡ product 8 poly a b }
    // In other words: what is left of the product of the two polynomials.
    ensures remainder { IsRemainder 8 poly (times a (coefficients 8 b)) result }
{
    let a = u16::from(a);
    let mut result: u16 = 0;
    for i in 0..8u32 {
        let term = if (b >> (7 - i)) & 1 == 1 { a } else { 0 };
        result = gf8_double(result, poly) ^ term;
    }
    result as u8
}

// A polynomial of a degree below 8, times x.
fn gf8_double(a: u16, poly: u16) -> u16
    requires { a < 256 }
    ensures { result ≡ reduced 8 poly (2 * a) }
{
    let twice = a << 1;
    if twice < 0x100 { twice } else { twice ^ poly }
}

/// Multiplies 16 bytes by x in GF(2^128).
pub fn double(t: &mut [u8; 16])
    ensures { t.new ≡ times_power 1 t.old }
{
    let (low, high) = words(t);
    let (low, high) = double_words(low, high);
    *t = bytes(low, high);
}

// 16 bytes as two words, the lower first.
pub(crate) fn words(t: &[u8; 16]) -> (u64, u64)
    ensures { result.0 + 2 ^ 64 * result.1 ≡ from_bytes t.now }
{
    let [a, b, c, d, e, f, g, h, i, j, k, l, m, n, o, p] = *t;
    (
        u64::from_le_bytes([a, b, c, d, e, f, g, h]),
        u64::from_le_bytes([i, j, k, l, m, n, o, p]),
    )
}

// Two words as 16 bytes, the lowest first.
pub(crate) fn bytes(low: u64, high: u64) -> [u8; 16]
    ensures { result ≡ to_bytes 16 (low + 2 ^ 64 * high) }
{
    let [a, b, c, d, e, f, g, h] = low.to_le_bytes();
    let [i, j, k, l, m, n, o, p] = high.to_le_bytes();
    [a, b, c, d, e, f, g, h, i, j, k, l, m, n, o, p]
}

// The same, written to a block.
pub(crate) fn write_words(block: &mut [u8], low: u64, high: u64)
    requires { length block.old ≡ 16 }
    ensures { block.new ≡ to_bytes 16 (low + 2 ^ 64 * high) }
{
    block[..8].copy_from_slice(&low.to_le_bytes());
    block[8..].copy_from_slice(&high.to_le_bytes());
}

// Two words times x: x^128 is x^7 + x^2 + x + 1.
pub(crate) fn double_words(low: u64, high: u64) -> (u64, u64)
    ensures { result.0 + 2 ^ 64 * result.1 ≡ reduced 128 xts_polynomial (2 * (low + 2 ^ 64 * high)) }
{
    let top = high >> 63;
    (
        (low << 1) ^ top.wrapping_mul(0x87),
        (high << 1) | (low >> 63),
    )
}

#[cfg(test)]
mod tests {
    use super::*;

    // FIPS 197, section 4.2, gives the first two. The others are x times x^7, which is what the
    // polynomial has below x^8.
    #[test]
    fn multiplies_bytes(rt: HostRuntime) {
        assert_eq!(rt; gf8_mul(0x57, 0x83, 0x11b), 0xc1);
        assert_eq!(rt; gf8_mul(0x57, 0x13, 0x11b), 0xfe);
        assert_eq!(rt; gf8_mul(0x02, 0x80, 0x11b), 0x1b);
        assert_eq!(rt; gf8_mul(0x80, 0x02, 0x169), 0x69);
        assert_eq!(rt; gf8_mul(0x02, 0x80, 0x14d), 0x4d);
    }

    // Each byte's top bit goes into the next byte, and the last one's comes back as 87.
    #[test]
    fn doubles_blocks(rt: HostRuntime) {
        for (set, value, at, twice) in [
            (0, 0x01, 0, 0x02),
            (0, 0x80, 1, 0x01),
            (7, 0x80, 8, 0x01),
            (8, 0x40, 8, 0x80),
            (15, 0x80, 0, 0x87),
        ] {
            let mut block = [0; 16];
            let mut want = [0; 16];
            block[set] = value;
            want[at] = twice;
            double(&mut block);
            assert!(rt; block == want, "{value} at {set}");
        }
        // all bits set: ff..fe, and fe with 87 is 79
        let mut block = [0xff; 16];
        let mut want = [0xff; 16];
        want[0] = 0x79;
        double(&mut block);
        assert!(rt; block == want);
    }
}
