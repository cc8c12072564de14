//! Volumes that are formatted elsewhere, sizes that none has, and what faults and crashes leave.
ghost use Rattle.std.specs.Prelude.{◌≡◌};

use crate::{FormatError, FormatSpec, HiddenSpec, format_hidden, format_outer};
use algorithm_names::Algorithm;
use kdf_hmac::{Password, Prf};
use rand_chacha::ChaCha20Rng;
use rand_core::SeedableRng;
use sha2::{Digest, Sha256};
use std::process::Abort;
use std::test::Fail;
use vc_outside::{MemStore, Store, SureStore};

// The bytes 0 to 31, the key of the random stream.
const KEY: [u8; 32] = [
    0, 1, 2, 3, 4, 5, 6, 7, 8, 9, 10, 11, 12, 13, 14, 15, 16, 17, 18, 19, 20, 21, 22, 23, 24, 25,
    26, 27, 28, 29, 30, 31,
];

// The bytes 32 to 63, the key for the hidden volume.
const HIDDEN_KEY: [u8; 32] = [
    32, 33, 34, 35, 36, 37, 38, 39, 40, 41, 42, 43, 44, 45, 46, 47, 48, 49, 50, 51, 52, 53, 54, 55,
    56, 57, 58, 59, 60, 61, 62, 63,
];

fn outer(rt: &impl Abort, size: u64, sector: u32) -> FormatSpec
    ensures { result.pim ≡ 1 }
{
    FormatSpec {
        password: Password::new(b"correct horse").expect(rt, "a password"),
        pim: 1,
        prf: Prf::Sha512,
        algorithm: Algorithm::Aes,
        size,
        sector,
    }
}

fn hidden(rt: &impl Abort, size: u64, sector: u32, prf: Prf, algorithm: Algorithm) -> HiddenSpec
    ensures { result.pim ≡ 1 }
{
    HiddenSpec {
        password: Password::new(b"hidden horse").expect(rt, "a password"),
        pim: 1,
        prf,
        algorithm,
        size,
        sector,
    }
}

// By `scripts/independent_container.py format`: size, sector and SHA-256 of the image.
static OUTER: [(u64, u32, [u8; 32]); 3] = [
    (
        1_048_576,
        512,
        [
            0x9e, 0x82, 0x4d, 0x50, 0xb1, 0x09, 0x3e, 0xc7, 0x15, 0x76, 0x66, 0x65, 0x79, 0xfc,
            0x40, 0x49, 0x03, 0xfe, 0xa8, 0xfb, 0x03, 0xd6, 0x42, 0xae, 0x17, 0x6d, 0x3f, 0x71,
            0x9b, 0x50, 0x57, 0xda,
        ],
    ),
    (
        262_656,
        512,
        [
            0x0f, 0x10, 0xa4, 0x1f, 0x25, 0x36, 0x30, 0x06, 0xd7, 0xed, 0x90, 0x96, 0x27, 0x3d,
            0xbe, 0x7a, 0x8a, 0x2f, 0x77, 0xb0, 0x18, 0x89, 0x5f, 0x6c, 0xe8, 0x51, 0x13, 0xec,
            0x13, 0x76, 0x44, 0x52,
        ],
    ),
    (
        266_240,
        4096,
        [
            0xc8, 0x84, 0xac, 0xd0, 0x84, 0x14, 0x9c, 0xa0, 0x5e, 0x84, 0x75, 0x48, 0xe9, 0xea,
            0x8c, 0x09, 0x13, 0x00, 0x57, 0x8c, 0x7e, 0x23, 0x39, 0xe3, 0x45, 0xfe, 0x79, 0x00,
            0x62, 0x1b, 0x5b, 0x9e,
        ],
    ),
];

#[test]
fn images_are_those_of_another_program(rt: HostRuntime) {
    for (size, sector, want) in OUTER {
        let mut disk = SureStore::new(Vec::new(rt.alloc()));
        // what was there before is no part of it
        assert_eq!(rt; disk.set_len(1_048_577), Ok(()));
        let mut rng = ChaCha20Rng::from_seed(KEY);
        let made = format_outer(&mut disk, &mut rng, &outer(&rt, size, sector));
        assert_eq!(rt; made, Ok(()), "{size}");
        assert_eq!(rt; Sha256::digest(disk.bytes()), want, "{size}");
    }
}

// By `scripts/independent_container.py format` and then `hide`: the container's size, the hidden size, its
// sector, PRF and algorithm, and the SHA-256 of the image. The last volumes fill the data area.
static HIDDEN: [(u64, u64, u32, Prf, Algorithm, [u8; 32]); 3] = [
    (
        1_048_576,
        262_144,
        512,
        Prf::Sha512,
        Algorithm::Aes,
        [
            0xd2, 0xa3, 0xf9, 0xbe, 0x1f, 0x28, 0x9c, 0x37, 0x57, 0x31, 0xa6, 0x89, 0x06, 0xb2,
            0x0a, 0x73, 0x7a, 0xce, 0xf1, 0x9e, 0xbe, 0x5c, 0x8a, 0xe1, 0x1b, 0x02, 0x60, 0x62,
            0xf1, 0x0b, 0x84, 0x89,
        ],
    ),
    (
        1_048_576,
        786_432,
        4096,
        Prf::Sha256,
        Algorithm::AesTwofishSerpent,
        [
            0x21, 0x28, 0x77, 0xfe, 0xf0, 0x73, 0xaa, 0xb1, 0xe9, 0x58, 0x15, 0xf6, 0xb6, 0x1e,
            0xd3, 0x3f, 0xc8, 0x05, 0x6b, 0x2d, 0x84, 0x27, 0xc0, 0xa6, 0xda, 0xf1, 0xb7, 0xe2,
            0x02, 0xd1, 0x9f, 0xbc,
        ],
    ),
    (
        262_656,
        512,
        512,
        Prf::Sha512,
        Algorithm::Aes,
        [
            0x3d, 0xdc, 0x55, 0xd4, 0x1f, 0x06, 0x3a, 0xd2, 0x02, 0x2f, 0x54, 0x4d, 0xa2, 0xbf,
            0xa9, 0x10, 0x4f, 0x79, 0x63, 0xcd, 0xac, 0x5d, 0x4a, 0x0f, 0xb7, 0xa2, 0x44, 0xcd,
            0x0f, 0xdc, 0x1a, 0x49,
        ],
    ),
];

#[test]
fn hidden_volumes_are_those_of_another_program(rt: HostRuntime) {
    for (len, size, sector, prf, algorithm, want) in HIDDEN {
        let mut disk = SureStore::new(Vec::new(rt.alloc()));
        let mut rng = ChaCha20Rng::from_seed(KEY);
        let made = format_outer(&mut disk, &mut rng, &outer(&rt, len, 512));
        assert_eq!(rt; made, Ok(()), "{size}");
        let mut rng = ChaCha20Rng::from_seed(HIDDEN_KEY);
        let spec = hidden(&rt, size, sector, prf, algorithm);
        assert_eq!(rt; format_hidden(&mut disk, &mut rng, &spec), Ok(()), "{size}");
        assert_eq!(rt; Sha256::digest(disk.bytes()), want, "{size}");
    }
}

#[test]
fn no_container_has_these_sizes(rt: HostRuntime) {
    for (size, sector) in [
        (0, 512),
        (262_655, 512),
        (262_657, 512),
        ((1 << 40) + 512, 512),
        (u64::MAX, 512),
        (264_192, 4096),
        (1_049_088, 4096),
        (1_048_576, 513),
        (1_048_576, 0),
    ] {
        let mut disk = SureStore::new(Vec::new(rt.alloc()));
        let mut rng = ChaCha20Rng::from_seed(KEY);
        let answer = format_outer(&mut disk, &mut rng, &outer(&rt, size, sector));
        assert_eq!(rt; answer, Err(FormatError::BadSize), "{size}");
        assert_eq!(rt; disk.bytes().len(), 0, "{size}");
        assert_eq!(rt; rng.get_word_pos(), 0, "{size}");
    }
}

#[test]
fn no_hidden_volume_has_these_sizes(rt: HostRuntime) -> Result<(), Fail> {
    for (len, size, sector) in [
        (1_048_576, 0, 512),
        (1_048_576, 511, 512),
        (1_048_576, 786_433, 512),
        (1_048_576, 786_944, 512),
        (1_048_576, 512, 4096),
        (1_048_576, 1024, 1023),
        (262_655, 512, 512),
        (262_657, 512, 512),
        (0, 512, 512),
    ] {
        let mut bytes = Vec::new(rt.alloc());
        bytes.resize(len, 0xa5)?;
        let mut disk = SureStore::new(bytes);
        let mut rng = ChaCha20Rng::from_seed(HIDDEN_KEY);
        let spec = hidden(&rt, size, sector, Prf::Sha512, Algorithm::Aes);
        let answer = format_hidden(&mut disk, &mut rng, &spec);
        assert_eq!(rt; answer, Err(FormatError::BadSize), "{size} in {len}");
        assert!(rt;
            disk.bytes().iter().all(|byte| *byte == 0xa5),
            "{size} in {len}"
        );
        assert_eq!(rt; rng.get_word_pos(), 0, "{size} in {len}");
    }
    Ok(())
}

fn is_old(part: Option<&[u8]>) -> bool {
    match part {
        Some(bytes) => bytes.iter().all(|byte| *byte == 0x5a),
        None => false,
    }
}

// Whether all of 262,656 bytes are 5a but for the hidden slot and its backup.
fn changed_in_slots_alone(bytes: &[u8]) -> bool {
    bytes.len() == 262_656
        && is_old(bytes.get(..65_536))
        && is_old(bytes.get(66_048..197_120))
        && is_old(bytes.get(197_632..))
}

// The calls are two writes and the sync. Each in turn fails, alone or with all after it.
#[test]
fn a_fault_or_a_crash_changes_the_two_slots_alone(rt: HostRuntime) -> Result<(), Fail> {
    let alloc = rt.alloc();
    for (call, stops) in [
        (0, false),
        (1, false),
        (2, false),
        (0, true),
        (1, true),
        (2, true),
    ] {
        let mut bytes = Vec::new(alloc);
        bytes.resize(262_656, 0x5a)?;
        let mut fails = Vec::new(alloc);
        fails.push(call)?;
        let stop = if stops { Some(call) } else { None };
        let mut disk = MemStore::new(alloc, bytes, fails, stop, 4096, 16 << 20)?;
        let mut rng = ChaCha20Rng::from_seed(HIDDEN_KEY);
        let spec = hidden(&rt, 512, 512, Prf::Sha256, Algorithm::Aes);
        let answer = format_hidden(&mut disk, &mut rng, &spec);
        assert_eq!(rt; answer, Err(FormatError::WriteFault), "{call}");
        assert!(rt; changed_in_slots_alone(disk.bytes()), "{call}");
        for pick in [0, 1, 2] {
            assert!(rt; pick < 3);
            let image = disk.after_crash(pick)?;
            assert!(rt; changed_in_slots_alone(&image), "{call} {pick}");
        }
    }
    Ok(())
}
