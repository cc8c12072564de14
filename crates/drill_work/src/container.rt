//! The container of a drill.
ghost use Rattle.std.specs.Prelude.{◌≡◌, length, IfOk};
ghost use Rattle.drill_streams.specs.Drill.{key_of};
ghost use Rattle.algorithm_names.specs.declared.algorithm.Algorithm.TheVariants.{Aes};
ghost use Rattle.drill_work.specs.Summary.{container, fields, spec};

use algorithm_names::Algorithm;
use drill_streams::NoMemory;
use header_try::{Kind, Opened, open_plain};
use kdf_hmac::{Password, Prf};
use rand_chacha::ChaCha20Rng;
use rand_core::SeedableRng;
use std::alloc::Global;
use vc_outside::SureStore;
use volume_format::{FormatError, FormatSpec, format_outer};

/// The bytes of the container.
pub(crate) const SIZE: u64 = 5_242_880;

/// Formats the container of the drill of n, and opens it by its password.
pub(crate) fn opened_container(alloc: Global, n: u64) -> Result<(SureStore, Opened), NoMemory>
    ensures container { IfOk result (λ r. r.0 ≡ container n) }
    ensures size { IfOk result (λ r. length r.0 ≡ 5242880) }
    ensures algorithm { IfOk result (λ r. r.1.algorithm ≡ Aes) }
    ensures fields { IfOk result (λ r. r.1.fields ≡ fields n) }
{
    let spec = spec();
    let mut disk = SureStore::new(Vec::new(alloc));
    let mut rng = ChaCha20Rng::from_seed(key_of(n));
    match format_outer(&mut disk, &mut rng, &spec) {
        Ok(()) => {}
        Err(FormatError::NoMemory) => return Err(NoMemory),
        Err(FormatError::BadSize | FormatError::WriteFault) => unreachable!(),
    }
    let opened = open_plain(&mut disk, &spec.password, spec.pim, Kind::StandardOnly);
    let Ok(opened) = opened else { unreachable!() };
    Ok((disk, opened))
}

// What is formatted.
fn spec() -> FormatSpec
    ensures { result ≡ spec }
{
    let password = Password::new(b"drill");
    let Some(password) = password else {
        unreachable!()
    };
    FormatSpec {
        password,
        pim: 1,
        prf: Prf::Sha512,
        algorithm: Algorithm::Aes,
        size: SIZE,
        sector: 512,
    }
}

// The random key of the drill of n.
fn key_of(n: u64) -> [u8; 32]
    ensures { result ≡ key_of n }
{
    let mut key = [0u8; 32];
    key[..8].copy_from_slice(&n.to_le_bytes());
    key
}
