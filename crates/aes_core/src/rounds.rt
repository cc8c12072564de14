//! The cipher (FIPS 197, 5.1) and the inverse cipher (5.3) on blocks, eight at a time.
ghost use Rattle.std.specs.Prelude.{◌≡◌, ◌<◌, ◌%◌, length};
ghost use Rattle.vc_base.specs.Bytes.{in_pieces};
ghost use Rattle.aes_core.specs.Aes.{cipher, inverse_cipher};

use crate::columns::{mixed, unmixed};
use crate::inverse_sbox::unsubstituted;
use crate::keys::{RoundKeys, with_round_key};
use crate::planes::{gather, rows_turned, scatter, transposed};
use crate::rows::{shifted, unshifted};
use crate::sbox::substituted;

/// Enciphers each block of a list of whole blocks, in place.
pub fn encipher_all(keys: &RoundKeys, blocks: &mut [u8])
    requires { length blocks.old % 16 ≡ 0 }
    ensures { blocks.new ≡ in_pieces 16 (λ _ b. cipher keys.now.schedule b) blocks.old }
{
    let groups = blocks.len() / 128;
    for i in 0..groups {
        encipher_eight(keys, &mut blocks[128 * i..128 * i + 128]);
    }
    encipher_rest(keys, &mut blocks[128 * groups..]);
}

/// Deciphers each block of a list of whole blocks, in place.
pub fn decipher_all(keys: &RoundKeys, blocks: &mut [u8])
    requires { length blocks.old % 16 ≡ 0 }
    ensures { blocks.new ≡ in_pieces 16 (λ _ b. inverse_cipher keys.now.schedule b) blocks.old }
{
    let groups = blocks.len() / 128;
    for i in 0..groups {
        decipher_eight(keys, &mut blocks[128 * i..128 * i + 128]);
    }
    decipher_rest(keys, &mut blocks[128 * groups..]);
}

// Enciphers fewer than eight blocks in place: the rest of their group is zeros.
fn encipher_rest(keys: &RoundKeys, rest: &mut [u8])
    requires whole { length rest.old % 16 ≡ 0 }
    requires short { length rest.old < 128 }
    ensures { rest.new ≡ in_pieces 16 (λ _ b. cipher keys.now.schedule b) rest.old }
{
    let len = rest.len();
    if len > 0 {
        let mut group = [0; 128];
        group[..len].copy_from_slice(rest);
        encipher_eight(keys, &mut group);
        rest.copy_from_slice(&group[..len]);
    }
}

// Enciphers eight blocks in place.
fn encipher_eight(keys: &RoundKeys, group: &mut [u8])
    requires { length group.old ≡ 128 }
    ensures { group.new ≡ in_pieces 16 (λ _ b. cipher keys.now.schedule b) group.old }
{
    let mut x = with_round_key(keys, 0, transposed(rows_turned(gather(group))));
    for round in 1..14 {
        x = with_round_key(keys, round, mixed(shifted(substituted(x))));
    }
    let last = with_round_key(keys, 14, shifted(substituted(x)));
    scatter(rows_turned(transposed(last)), group);
}

// Deciphers fewer than eight blocks in place: the rest of their group is zeros.
fn decipher_rest(keys: &RoundKeys, rest: &mut [u8])
    requires whole { length rest.old % 16 ≡ 0 }
    requires short { length rest.old < 128 }
    ensures { rest.new ≡ in_pieces 16 (λ _ b. inverse_cipher keys.now.schedule b) rest.old }
{
    let len = rest.len();
    if len > 0 {
        let mut group = [0; 128];
        group[..len].copy_from_slice(rest);
        decipher_eight(keys, &mut group);
        rest.copy_from_slice(&group[..len]);
    }
}

// Deciphers eight blocks in place.
fn decipher_eight(keys: &RoundKeys, group: &mut [u8])
    requires { length group.old ≡ 128 }
    ensures { group.new ≡ in_pieces 16 (λ _ b. inverse_cipher keys.now.schedule b) group.old }
{
    let mut x = with_round_key(keys, 14, transposed(rows_turned(gather(group))));
    for round in (1..14).rev() {
        x = unmixed(with_round_key(keys, round, unsubstituted(unshifted(x))));
    }
    let last = with_round_key(keys, 0, unsubstituted(unshifted(x)));
    scatter(rows_turned(transposed(last)), group);
}
