//! What an expanded container is, and what opens after a refusal, a fault and a stop.
ghost use Rattle.std.specs.Prelude.{◌≡◌};

use crate::{ExpandError, expand};
use algorithm_names::Algorithm;
use header_seal::Opened;
use header_try::open_plain;
use kdf_hmac::{Password, Prf};
use rand_chacha::ChaCha20Rng;
use rand_core::SeedableRng;
use sha2::{Digest, Sha256};
use std::alloc::AllocGlobal;
use std::process::Abort;
use std::test::Fail;
use vc_layout::Kind::{StandardBackup, StandardOnly};
use vc_layout::{Kind, Slot};
use vc_outside::{MemStore, Store, SureStore};
use volume_format::{FormatSpec, format_outer};

// The bytes 0 to 31 and 64 to 95: the keys of the streams that make a container and expand it.
const KEY: [u8; 32] = [
    0, 1, 2, 3, 4, 5, 6, 7, 8, 9, 10, 11, 12, 13, 14, 15, 16, 17, 18, 19, 20, 21, 22, 23, 24, 25,
    26, 27, 28, 29, 30, 31,
];

const NEW_KEY: [u8; 32] = [
    64, 65, 66, 67, 68, 69, 70, 71, 72, 73, 74, 75, 76, 77, 78, 79, 80, 81, 82, 83, 84, 85, 86, 87,
    88, 89, 90, 91, 92, 93, 94, 95,
];

const PASSWORD: &[u8] = b"correct horse";

fn password(rt: &impl Abort) -> Password {
    Password::new(PASSWORD).expect(rt, "a password")
}

fn outer(rt: &impl Abort, size: u64, prf: Prf, algorithm: Algorithm, sector: u32) -> FormatSpec
    ensures { result.pim ≡ 1 }
{
    FormatSpec {
        password: password(rt),
        pim: 1,
        prf,
        algorithm,
        size,
        sector,
    }
}

// A container with an outer volume.
fn container<R: AllocGlobal + Abort>(rt: &R, size: u64) -> SureStore {
    let mut disk = SureStore::new(Vec::new(rt.alloc()));
    let mut rng = ChaCha20Rng::from_seed(KEY);
    let spec = outer(rt, size, Prf::Sha512, Algorithm::Aes, 512);
    assert_eq!(rt; format_outer(&mut disk, &mut rng, &spec), Ok(()), "format");
    disk
}

// The bytes in a store of which one call fails, or which stops at one.
fn store<R: AllocGlobal>(
    rt: &R,
    bytes: &[u8],
    fails: Option<u64>,
    stop: Option<u64>,
) -> Result<MemStore, Fail> {
    let alloc = rt.alloc();
    let mut image = Vec::new(alloc);
    image.extend_from_slice(bytes)?;
    let mut listed = Vec::new(alloc);
    if let Some(call) = fails {
        listed.push(call)?;
    }
    Ok(MemStore::new(alloc, image, listed, stop, 4096, 1 << 20)?)
}

// Opens the standard header, which is one read, and expands the container. None if it doesn't open.
fn expanded<D: Store>(disk: &mut D, p: &Password, size: u64) -> Option<Result<(), ExpandError>> {
    let mut rng = ChaCha20Rng::from_seed(NEW_KEY);
    let Ok(from) = open_plain(disk, p, 1, StandardOnly) else {
        return None;
    };
    let Slot::Standard = from.slot else {
        return None;
    };
    Some(expand(disk, &mut rng, &from, p, 1, size))
}

// What the header of a kind says of the volume, if the password opens it.
fn opened<R: AllocGlobal + Abort>(
    rt: &R,
    image: &[u8],
    kind: Kind,
) -> Result<Option<Opened>, Fail> {
    let mut disk = store(rt, image, None, None)?;
    Ok(open_plain(&mut disk, &password(rt), 1, kind).ok())
}

const WHOLE_WRITES: [u8; 32] = [
    0xab, 0x9d, 0x69, 0x2a, 0x0a, 0xfb, 0xc8, 0xd6, 0x84, 0xe1, 0x97, 0xce, 0x2d, 0x95, 0x47, 0x88,
    0xbe, 0x5e, 0x42, 0x95, 0x99, 0x19, 0x35, 0x47, 0x5f, 0x20, 0xa9, 0x3a, 0xe4, 0x05, 0xe1, 0x43,
];

const SHORTER_LAST_WRITE: [u8; 32] = [
    0x5f, 0x8e, 0x3c, 0xed, 0xbf, 0xab, 0xaf, 0xf2, 0x84, 0xdf, 0x7d, 0x51, 0x04, 0x5f, 0x3a, 0xa3,
    0x99, 0x46, 0x5d, 0xb4, 0x76, 0x13, 0x04, 0x21, 0x94, 0xe4, 0x74, 0x87, 0xcb, 0x79, 0x5d, 0xa6,
];

const ODD_LENGTH: [u8; 32] = [
    0x86, 0xc4, 0x47, 0xd6, 0x04, 0x12, 0x15, 0x76, 0x3a, 0x54, 0xbd, 0x0a, 0xb5, 0x48, 0xf2, 0x2a,
    0x4e, 0xda, 0x9e, 0x0e, 0x98, 0x58, 0x8d, 0x3d, 0x21, 0xab, 0x49, 0x31, 0xa8, 0x0a, 0xda, 0xd2,
];

const LONG_SECTORS: [u8; 32] = [
    0x48, 0x36, 0x7f, 0x81, 0x3a, 0xa8, 0xbc, 0x81, 0x1d, 0x91, 0x34, 0xe0, 0xab, 0xc8, 0x0e, 0xa3,
    0x3e, 0x83, 0x37, 0x5d, 0xd5, 0x15, 0x3b, 0xa7, 0x9a, 0x2b, 0x97, 0xb2, 0x2f, 0x19, 0xcf, 0x05,
];

// Expands the container in a store, which then has an image with this SHA-256.
fn grows_into<R: AllocGlobal + Abort>(rt: &R, mut disk: SureStore, size: u64, want: [u8; 32]) {
    let ended = expanded(&mut disk, &password(rt), size);
    assert_eq!(rt; ended, Some(Ok(())), "{size}");
    assert_eq!(rt; Sha256::digest(disk.bytes()), want, "{size}");
}

// A container whose length is odd.
fn with_odd_length<R: AllocGlobal + Abort>(rt: &R) -> Result<SureStore, Fail> {
    let mut image = Vec::new(rt.alloc());
    image.extend_from_slice(container(rt, 262_656).bytes())?;
    image.extend_from_slice(b"abc")?;
    Ok(SureStore::new(image))
}

// A container with long sectors, under another PRF and algorithm.
fn with_long_sectors<R: AllocGlobal + Abort>(rt: &R) -> SureStore {
    let mut disk = SureStore::new(Vec::new(rt.alloc()));
    let mut rng = ChaCha20Rng::from_seed(KEY);
    let spec = outer(rt, 266_240, Prf::Sha256, Algorithm::SerpentAes, 4096);
    assert_eq!(rt; format_outer(&mut disk, &mut rng, &spec), Ok(()), "format");
    disk
}

// By `scripts/independent_container.py format` and `expand`: the SHA-256 of the image. The last write of the fill is
// whole, or shorter; from an odd length the backup's salt begins within a word of the stream.
#[test]
fn expanded_images_are_those_of_another_program(rt: HostRuntime) -> Result<(), Fail> {
    grows_into(&rt, container(&rt, 262_656), 295_424, WHOLE_WRITES);
    grows_into(&rt, container(&rt, 262_656), 300_032, SHORTER_LAST_WRITE);
    grows_into(&rt, with_odd_length(&rt)?, 263_168, ODD_LENGTH);
    grows_into(&rt, with_long_sectors(&rt), 270_336, LONG_SECTORS);
    Ok(())
}

// By hand: a container of 1 MiB gets 2 MiB, of which the header groups take 262,144 bytes.
#[test]
fn both_headers_have_the_longer_volume(rt: HostRuntime) -> Result<(), Fail> {
    let mut disk = container(&rt, 1_048_576);
    let mut old = Vec::new(rt.alloc());
    old.extend_from_slice(disk.bytes())?;
    assert_eq!(rt;
        expanded(&mut disk, &password(&rt), 2_097_152),
        Some(Ok(()))
    );
    assert_eq!(rt;
        disk.bytes().get(512..917_504),
        old.get(512..917_504),
        "the old bytes"
    );
    for kind in [StandardOnly, StandardBackup] {
        let size = open_plain(&mut disk, &password(&rt), 1, kind).map(|o| o.fields.volume_size);
        assert_eq!(rt; size.ok(), Some(1_835_008), "{kind:?}");
    }
    Ok(())
}

// By hand, for a container of 1 MiB with sectors of 512 bytes.
#[test]
fn a_size_that_cannot_be_is_refused(rt: HostRuntime) -> Result<(), Fail> {
    let p = password(&rt);
    let mut disk = container(&rt, 1_048_576);
    for size in [
        0,
        1_048_064,
        1_048_576,
        1_048_577,
        2_097_153,
        (1 << 40) + 512,
    ] {
        let ended = expanded(&mut disk, &p, size);
        assert_eq!(rt; ended, Some(Err(ExpandError::BadSize)), "{size}");
        assert_eq!(rt; disk.bytes().len(), 1_048_576, "{size}");
    }
    Ok(())
}

// The volume's sizes before and after, of a container of 1 MiB that gets 1,114,112 bytes.
const OLD_SIZE: u64 = 786_432;

const NEW_SIZE: u64 = 851_968;

// Whether the standard header or its backup opens, and the old volume's bytes are there.
fn is_whole<R: AllocGlobal + Abort>(rt: &R, old: &[u8], image: &[u8]) -> Result<bool, Fail> {
    let header = opened(rt, image, StandardOnly)?;
    let backup = opened(rt, image, StandardBackup)?;
    let by_header = header.is_some_and(|o| {
        o.fields.volume_size == OLD_SIZE || o.fields.volume_size == NEW_SIZE
    });
    let by_backup = backup.is_some_and(|o| o.fields.volume_size == NEW_SIZE);
    let same = image.get(131_072..917_504) == old.get(131_072..917_504);
    Ok((by_header || by_backup) && same)
}

// Call 0 is the opening's read. Then come the new length, six writes of the fill, one of the backup's body, a sync, a
// write of the standard header and a sync; with 12 nothing stops.
#[test]
fn the_old_data_opens_after_each_stop(rt: HostRuntime) -> Result<(), Fail> {
    let made = container(&rt, 1_048_576);
    for stop in 1..13 {
        let mut disk = store(&rt, made.bytes(), None, Some(stop))?;
        let ended = expanded(&mut disk, &password(&rt), 1_114_112);
        assert_eq!(rt; ended == Some(Ok(())), stop == 12, "{stop}");
        for pick in 0..3 {
            assert!(rt; pick < 3);
            let image = disk.after_crash(pick)?;
            assert!(rt; is_whole(&rt, made.bytes(), &image)?, "{stop} {pick}");
        }
    }
    Ok(())
}

#[test]
fn the_old_data_opens_after_each_single_failure(rt: HostRuntime) -> Result<(), Fail> {
    let made = container(&rt, 1_048_576);
    for fails in 1..13 {
        let mut disk = store(&rt, made.bytes(), Some(fails), None)?;
        let ended = expanded(&mut disk, &password(&rt), 1_114_112);
        assert_eq!(rt; ended == Some(Ok(())), fails == 12, "{fails}");
        assert!(rt; is_whole(&rt, made.bytes(), disk.bytes())?, "{fails}");
        for pick in 0..3 {
            assert!(rt; pick < 3);
            let image = disk.after_crash(pick)?;
            assert!(rt; is_whole(&rt, made.bytes(), &image)?, "{fails} {pick}");
        }
    }
    Ok(())
}
