//! PBKDF2 (RFC 8018, section 5.2), and the counts of its iterations.
ghost use Rattle.std.specs.Prelude.{◌≡◌, ◌≤◌, ◌^◌, List, ℕ, length};
ghost use Rattle.kdf_hmac.specs.Pbkdf2.{IsPim, iterations_of, pbkdf2_bytes};

use crate::block::{Block, block_after, put_block};
use crate::keyed::Keyed;
use crate::prf::{Hasher, Prf};
use sha2::{Sha256, Sha512};

/// The greatest PIM: the last one whose count of iterations is below 2^31.
pub const GREATEST_PIM: u32 = 2_147_468;

/// The count of iterations that a PIM sets, a number up to `GREATEST_PIM`. A PIM of 0 means none.
pub fn iterations(pim: u32) -> u32
    requires { IsPim pim }
    ensures { result ≡ iterations_of pim }
{
    if pim == 0 {
        500_000
    } else {
        15_000 + 1000 * pim
    }
}

/// Fills `out` with bytes derived from a password and a salt.
pub fn pbkdf2(prf: Prf, password: &[u8], salt: &[u8], iterations: u32, out: &mut [u8])
    requires some { 1 ≤ iterations }
    requires short { length out.old ≤ 2 ^ 32 }
    ensures { out.new ≡ pbkdf2_bytes prf password.now salt.now iterations (length out.old) }
{
    match prf {
        Prf::Sha512 => fill::<Sha512>(password, salt, iterations, out),
        Prf::Sha256 => fill::<Sha256>(password, salt, iterations, out),
    }
}

fn fill<H: Hasher>(password: &[u8], salt: &[u8], iterations: u32, out: &mut [u8])
    requires some { 1 ≤ iterations }
    requires short { length out.old ≤ 2 ^ 32 }
    ensures { out.new ≡ pbkdf2_bytes H.prf password.now salt.now iterations (length out.old) }
{
    let key = Keyed::<H>::new(password);
    let length = H::output_length();
    let count = (out.len() + length - 1) / length;
    'pieces: for i in 0..count {
        let number = (i + 1) as u32;
        let block = block_after(&key, salt, number, Block::new(), 0, iterations);
        put_block::<H>(out, i, &block.sum);
    }
}
