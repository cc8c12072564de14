//! The digest of the plain sectors.
ghost use Rattle.std.specs.Prelude.{◌≡◌, ◌≤◌, ◌+◌, ◌*◌, ◌/◌, length, IfOk};
ghost use Rattle.cascade_set.specs.Volume.{plain_units};
ghost use Rattle.sha2.specs.Sha256.{sha256};

use cipher_base::UnitCipher;
use drill_streams::NoMemory;
use sha2::{Digest, Sha256};
use std::alloc::Global;
use vc_outside::SureStore;

/// The bytes of a data unit.
const UNIT: usize = 512;

/// The data unit that the volume begins with.
const FIRST: usize = 256;

/// How many data units are deciphered at a time, and how often: there are 9,728.
const UNITS: usize = 512;

const PIECES: usize = 19;

/// The SHA-256 of the plain sectors, joined in order.
pub(crate) fn digest_of<C: UnitCipher>(
    alloc: Global,
    disk: &SureStore,
    cipher: &C,
) -> Result<[u8; 32], NoMemory>
    requires { length disk.now ≡ 5242880 }
    ensures { IfOk result (λ d. d ≡ sha256 (plain_units (C.deciphered cipher.now) disk.now 256 9728)) }
{
    let Ok(mut piece) = vec![in alloc; 0u8; UNIT * UNITS] else {
        return Err(NoMemory);
    };
    Ok(digest_by(disk.bytes(), cipher, &mut piece))
}

// The same with memory for a piece.
fn digest_by<C: UnitCipher>(bytes: &[u8], cipher: &C, piece: &mut [u8]) -> [u8; 32]
    requires size { length bytes.now ≡ 5242880 }
    requires room { length piece.old ≡ 262144 }
    ensures { result ≡ sha256 (plain_units (C.deciphered cipher.now) bytes.now 256 9728) }
{
    let mut hasher = Sha256::new();
    'pieces: for i in 0..PIECES {
        decipher_piece(bytes, cipher, FIRST + UNITS * i, piece);
        hasher.update(&*piece);
    }
    hasher.finalize()
}

// Deciphers the data units from `first` on, as many as the piece has room for.
fn decipher_piece<C: UnitCipher>(bytes: &[u8], cipher: &C, first: usize, piece: &mut [u8])
    requires whole { length piece.old ≡ 512 * (length piece.old / 512) }
    requires within { 512 * first + length piece.old ≤ length bytes.now }
    ensures units { piece.new ≡ plain_units (C.deciphered cipher.now) bytes.now first (length piece.old / 512) }
    ensures length { length piece.new ≡ length piece.old }
{
    let from = UNIT * first;
    piece.copy_from_slice(&bytes[from..from + piece.len()]);
    cipher.decipher_units(first as u64, piece);
}
