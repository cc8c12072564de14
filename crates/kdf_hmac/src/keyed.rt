//! HMAC, with the key absorbed once (RFC 2104, section 4).
ghost use Rattle.std.specs.Prelude.{◌≡◌, ◌++◌, List, ℕ, replicate, take};
ghost use Rattle.vc_base.specs.Bytes.{xor_bytes};
ghost use Rattle.kdf_hmac.specs.Laws.Absorbed.{IsKeyed};
ghost use Rattle.kdf_hmac.specs.Hmac.{block_length, hmac_of, ipad, key_block, output_length, padded};

use crate::prf::{Hasher, Prf};
use sha2::{Sha256, Sha512};

// A key: two hashers that have absorbed its inner and its outer pad.
#[derive(Drop)]
pub(crate) struct Keyed<H: Hasher> {
    pub(crate) inner: H,
    pub(crate) outer: H,
}

impl<H: Hasher> Keyed<H> {
    pub(crate) fn new(key: &[u8]) -> Keyed<H>
        ensures { IsKeyed H.holds H.prf result.inner result.outer key.now }
    {
        let block = key_block::<H>(key);
        Keyed {
            inner: pad_hasher(&block, 0x36),
            outer: pad_hasher(&block, 0x5c),
        }
    }

    // The MAC of a text.
    pub(crate) fn mac(&self, text: &[u8]) -> [u8; 64]
        ensures { (key : List ℕ) → IsKeyed H.holds H.prf self.now.inner self.now.outer key
            → result ≡ padded H.prf (hmac_of H.prf key text.now) }
    {
        let mut inner = self.inner.copied();
        inner.absorb(text);
        self.finish(inner)
    }

    // The MAC of a text that `inner` has absorbed after the inner pad.
    pub(crate) fn finish(&self, inner: H) -> [u8; 64]
        ensures { (key text : List ℕ) → IsKeyed H.holds H.prf self.now.inner self.now.outer key
            → H.holds inner (xor_bytes (key_block H.prf key) (ipad H.prf) ++ text)
            → result ≡ padded H.prf (hmac_of H.prf key text) }
    {
        let digest = inner.finish();
        let mut outer = self.outer.copied();
        outer.absorb(&digest[..H::output_length()]);
        outer.finish()
    }
}

// The key as a block, with zeros after it if a block is shorter than the array.
fn key_block<H: Hasher>(key: &[u8]) -> [u8; 128]
    ensures { take (block_length H.prf) result ≡ key_block H.prf key.now }
{
    let mut block = [0; 128];
    let longest = H::block_length();
    if key.len() <= longest {
        block[..key.len()].copy_from_slice(key);
    } else {
        let mut hasher = H::start();
        hasher.absorb(key);
        block[..64].copy_from_slice(&hasher.finish());
    }
    block
}

// A hasher that has absorbed a key's block with each byte changed by `byte`.
fn pad_hasher<H: Hasher>(block: &[u8; 128], byte: u8) -> H
    ensures { let bytes = take (block_length H.prf) block.now in
        H.holds result (xor_bytes bytes (replicate (block_length H.prf) byte)) }
{
    let mut pad = *block;
    'bytes: for b in pad.iter_mut() {
        *b ^= byte;
    }
    let mut hasher = H::start();
    hasher.absorb(&pad[..H::block_length()]);
    hasher
}

/// The MAC of `text` under `key`. Returns its length, 64 or 32; the MAC is at the start of `out`, with
/// zeros after it.
pub fn hmac(prf: Prf, key: &[u8], text: &[u8], out: &mut [u8; 64]) -> usize
    ensures mac { out.new ≡ padded prf (hmac_of prf key.now text.now) }
    ensures length { result ≡ output_length prf }
{
    match prf {
        Prf::Sha512 => write_mac::<Sha512>(key, text, out),
        Prf::Sha256 => write_mac::<Sha256>(key, text, out),
    }
}

fn write_mac<H: Hasher>(key: &[u8], text: &[u8], out: &mut [u8; 64]) -> usize
    ensures mac { out.new ≡ padded H.prf (hmac_of H.prf key.now text.now) }
    ensures length { result ≡ output_length H.prf }
{
    let key = Keyed::<H>::new(key);
    *out = key.mac(text);
    H::output_length()
}
