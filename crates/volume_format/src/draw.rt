//! What is drawn from the random stream: bytes, salts in order and out of order, and the master keys.
ghost use Rattle.std.specs.Prelude.{◌≡◌, ◌%◌, length};
ghost use Rattle.volume_format.specs.Stream.{advanced, stream_bytes};
ghost use Rattle.volume_format.specs.Formatted.{key_bytes, material_of};

use algorithm_names::Algorithm;
use rand_chacha::ChaCha20Rng;
use rand_core::utils::fill_bytes_via_u32;
use vc_header::{MATERIAL, SALT};

/// The bytes that the keys of one cipher take: a main key and a tweak key.
const CIPHER_KEYS: usize = 64;

/// The bytes of a word of the stream.
const WORD: u64 = 4;

/// Fills the bytes with the next bytes of the stream.
pub fn next_bytes(rng: &mut ChaCha20Rng, bytes: &mut [u8])
    requires { length bytes.old % 4 ≡ 0 }
    ensures bytes { bytes.new ≡ stream_bytes rng.old 0 (length bytes.old) }
    ensures drawn { rng.new ≡ advanced rng.old (length bytes.old) }
{
    let _place = rng.get_word_pos();
    fill_bytes_via_u32(rng, bytes);
}

/// The next bytes of the stream as a salt.
pub fn next_salt(rng: &mut ChaCha20Rng) -> [u8; SALT]
    ensures salt { result ≡ stream_bytes rng.old 0 64 }
    ensures drawn { rng.new ≡ advanced rng.old 64 }
{
    let mut salt = [0u8; SALT];
    next_bytes(rng, &mut salt);
    salt
}

/// Fills the bytes with those of the stream from the word on that byte `at` is in. The generator keeps its place.
pub fn bytes_at(rng: &mut ChaCha20Rng, at: u64, bytes: &mut [u8])
    requires { length bytes.old % 4 ≡ 0 }
    ensures bytes { bytes.new ≡ stream_bytes rng.old at (length bytes.old) }
    ensures rng { rng.new ≡ rng.old }
{
    let place = rng.get_word_pos();
    rng.set_word_pos(place + u128::from(at / WORD));
    next_bytes(rng, bytes);
    rng.set_word_pos(place);
}

/// The salt that is at byte `at` of the stream. The generator keeps its place.
pub(crate) fn salt_at(rng: &mut ChaCha20Rng, at: u64) -> [u8; SALT]
    ensures salt { result ≡ stream_bytes rng.old at 64 }
    ensures rng { rng.new ≡ rng.old }
{
    let mut salt = [0u8; SALT];
    bytes_at(rng, at, &mut salt);
    salt
}

/// The next bytes of the stream as master keys, then zeros.
pub(crate) fn key_material(rng: &mut ChaCha20Rng, algorithm: Algorithm) -> [u8; MATERIAL]
    ensures material { result ≡ material_of rng.old 0 algorithm }
    ensures drawn { rng.new ≡ advanced rng.old (key_bytes algorithm) }
{
    let count = CIPHER_KEYS * usize::from(algorithm.ciphers());
    let mut material = [0u8; MATERIAL];
    next_bytes(rng, &mut material[..count]);
    material
}
