//! Which password opens which slot after a change, a fault and a crash.
//!
//! Each container has an outer volume and a hidden one, which fill its data area.
ghost use Rattle.std.specs.Prelude.{◌≡◌};
ghost use Rattle.kdf_hmac.specs.Pbkdf2.{IsPim};

use crate::{change, restore};
use algorithm_names::Algorithm;
use header_try::open_plain;
use kdf_hmac::{Password, Prf};
use rand_chacha::ChaCha20Rng;
use rand_core::SeedableRng;
use sha2::{Digest, Sha256};
use std::alloc::AllocGlobal;
use std::process::Abort;
use std::test::Fail;
use vc_layout::Kind;
use vc_layout::Kind::{HiddenBackup, HiddenOnly, StandardBackup, StandardOnly};
use vc_outside::{Failed, MemStore, SureStore};
use volume_format::{FormatSpec, HiddenSpec, format_hidden, format_outer};

// The bytes 0 to 31, 32 to 63 and 64 to 95: the keys of the streams that make a container, give it a hidden
// volume, and change a password.
const KEY: [u8; 32] = [
    0, 1, 2, 3, 4, 5, 6, 7, 8, 9, 10, 11, 12, 13, 14, 15, 16, 17, 18, 19, 20, 21, 22, 23, 24, 25,
    26, 27, 28, 29, 30, 31,
];

const HIDDEN_KEY: [u8; 32] = [
    32, 33, 34, 35, 36, 37, 38, 39, 40, 41, 42, 43, 44, 45, 46, 47, 48, 49, 50, 51, 52, 53, 54, 55,
    56, 57, 58, 59, 60, 61, 62, 63,
];

const NEW_KEY: [u8; 32] = [
    64, 65, 66, 67, 68, 69, 70, 71, 72, 73, 74, 75, 76, 77, 78, 79, 80, 81, 82, 83, 84, 85, 86, 87,
    88, 89, 90, 91, 92, 93, 94, 95,
];

const OUTER: &[u8] = b"correct horse";

const HIDDEN: &[u8] = b"hidden horse";

const NEW: &[u8] = b"new horse";

fn password(rt: &impl Abort, text: &[u8]) -> Password {
    Password::new(text).expect(rt, "a password")
}

fn outer(rt: &impl Abort, size: u64, sector: u32) -> FormatSpec
    ensures { result.pim ≡ 1 }
{
    FormatSpec {
        password: password(rt, OUTER),
        pim: 1,
        prf: Prf::Sha512,
        algorithm: Algorithm::Aes,
        size,
        sector,
    }
}

fn hidden(rt: &impl Abort, size: u64, sector: u32) -> HiddenSpec
    ensures { result.pim ≡ 1 }
{
    HiddenSpec {
        password: password(rt, HIDDEN),
        pim: 1,
        prf: Prf::Sha256,
        algorithm: Algorithm::SerpentAes,
        size,
        sector,
    }
}

// A container of one sector for the outer volume's data and one that the hidden volume takes.
fn container<R: AllocGlobal + Abort>(rt: &R, sector: u32) -> SureStore {
    let mut disk = SureStore::new(Vec::new(rt.alloc()));
    let mut rng = ChaCha20Rng::from_seed(KEY);
    let size = 262_144 + 2 * u64::from(sector);
    let made = format_outer(&mut disk, &mut rng, &outer(rt, size, sector));
    assert_eq!(rt; made, Ok(()), "format");
    let mut rng = ChaCha20Rng::from_seed(HIDDEN_KEY);
    let made = format_hidden(&mut disk, &mut rng, &hidden(rt, u64::from(sector), sector));
    assert_eq!(rt; made, Ok(()), "hide");
    disk
}

// The bytes in a store of which one call fails, or which stops at one.
fn store<R: AllocGlobal>(
    rt: &R,
    bytes: &[u8],
    fails: Option<u64>,
    stop: Option<u64>,
) -> Result<MemStore, Fail> {
    let alloc = rt.alloc();
    let mut image = Vec::new(alloc);
    image.extend_from_slice(bytes)?;
    let mut listed = Vec::new(alloc);
    if let Some(call) = fails {
        listed.push(call)?;
    }
    Ok(MemStore::new(alloc, image, listed, stop, 4096, 1 << 20)?)
}

// Opens a kind, which is one read, and changes its password to the new one. None if nothing opens.
fn changed(
    disk: &mut MemStore,
    kind: Kind,
    old: &Password,
    new: &Password,
) -> Option<Result<(), Failed>> {
    let mut rng = ChaCha20Rng::from_seed(NEW_KEY);
    let Ok(from) = open_plain(disk, old, 1, kind) else {
        return None;
    };
    Some(change(disk, &mut rng, &from, new, 2, Prf::Sha512))
}

// Opens a backup, which is one read, and writes the primary header from it, under the same password.
fn restored(disk: &mut MemStore, kind: Kind, p: &Password) -> Option<Result<(), Failed>> {
    let mut rng = ChaCha20Rng::from_seed(NEW_KEY);
    let Ok(from) = open_plain(disk, p, 1, kind) else {
        return None;
    };
    Some(restore(disk, &mut rng, &from, p, 1))
}

// What opens a slot: the password before the call, the new one, or neither.
#[derive(Clone, Copy)]
enum Opener {
    Old,
    New,
    Neither,
}

use Opener::{Neither, New, Old};

// Whether a password opens the slot of a kind.
fn opens<R: AllocGlobal + Abort>(
    rt: &R,
    image: &[u8],
    text: &[u8],
    pim: u32,
    kind: Kind,
) -> Result<bool, Fail>
    requires { IsPim pim }
{
    let mut disk = store(rt, image, None, None)?;
    Ok(open_plain(&mut disk, &password(rt, text), pim, kind).is_ok())
}

// Whether the slot of a kind is opened by what should open it.
fn is_opened_by<R: AllocGlobal + Abort>(
    rt: &R,
    image: &[u8],
    old: &[u8],
    kind: Kind,
    opener: Opener,
) -> Result<bool, Fail> {
    match opener {
        Old => opens(rt, image, old, 1, kind),
        New => opens(rt, image, NEW, 2, kind),
        Neither => {
            let by_old = opens(rt, image, old, 1, kind)?;
            let by_new = opens(rt, image, NEW, 2, kind)?;
            Ok(!by_old && !by_new)
        }
    }
}

// By hand: the call at which the store stops, counted from the first write, what a crash then takes (0 the old
// bytes, 1 the new ones, 2 neither), and what opens the primary slot and its backup. The calls are a write and
// a sync of the primary slot, and the same of its backup; with 4 nothing fails.
static AFTER_A_STOP: [(u64, u8, Opener, Opener); 15] = [
    (0, 0, Old, Old),
    (0, 1, New, Old),
    (0, 2, Neither, Old),
    (1, 0, Old, Old),
    (1, 1, New, Old),
    (1, 2, Neither, Old),
    (2, 0, New, Old),
    (2, 1, New, New),
    (2, 2, New, Neither),
    (3, 0, New, Old),
    (3, 1, New, New),
    (3, 2, New, Neither),
    (4, 0, New, New),
    (4, 1, New, New),
    (4, 2, New, New),
];

// The rows of the table over a container whose volume opens by this password in the slot of the kind `opened`.
fn stops<R: AllocGlobal + Abort>(
    rt: &R,
    made: &[u8],
    old: &[u8],
    opened: Kind,
    primary: Kind,
    backup: Kind,
) -> Result<(), Fail> {
    for (stop, pick, first, second) in AFTER_A_STOP {
        assert!(rt; stop < 5);
        assert!(rt; pick < 3);
        let mut disk = store(rt, made, None, Some(stop + 1))?;
        let ended = changed(&mut disk, opened, &password(rt, old), &password(rt, NEW));
        assert_eq!(rt; ended == Some(Ok(())), stop == 4, "{stop}");
        let image = disk.after_crash(pick)?;
        assert!(rt;
            is_opened_by(rt, &image, old, primary, first)?,
            "primary, {stop} {pick}"
        );
        assert!(rt;
            is_opened_by(rt, &image, old, backup, second)?,
            "backup, {stop} {pick}"
        );
    }
    Ok(())
}

#[test]
fn the_old_or_the_new_password_opens_after_each_stop(rt: HostRuntime) -> Result<(), Fail> {
    let made = container(&rt, 512);
    stops(
        &rt,
        made.bytes(),
        OUTER,
        StandardOnly,
        StandardOnly,
        StandardBackup,
    )
}

// The change begins from the backup of the hidden volume, with sectors of 4096 bytes.
#[test]
fn a_hidden_volume_opens_after_each_stop(rt: HostRuntime) -> Result<(), Fail> {
    let made = container(&rt, 4096);
    stops(
        &rt,
        made.bytes(),
        HIDDEN,
        HiddenBackup,
        HiddenOnly,
        HiddenBackup,
    )
}

// By hand: the call that fails, counted from the opening's read, and what then opens the two slots. A failed
// write stores half of its bytes, and the change ends.
#[test]
fn a_header_opens_after_each_single_failure(rt: HostRuntime) -> Result<(), Fail> {
    let made = container(&rt, 512);
    for (fails, first, second) in [
        (1, Neither, Old),
        (2, New, Old),
        (3, New, Neither),
        (4, New, New),
        (5, New, New),
    ] {
        let mut disk = store(&rt, made.bytes(), Some(fails), None)?;
        let ended = changed(
            &mut disk,
            StandardOnly,
            &password(&rt, OUTER),
            &password(&rt, NEW),
        );
        assert_eq!(rt; ended == Some(Ok(())), fails == 5, "{fails}");
        assert!(rt;
            is_opened_by(&rt, disk.bytes(), OUTER, StandardOnly, first)?,
            "primary, {fails}"
        );
        assert!(rt;
            is_opened_by(&rt, disk.bytes(), OUTER, StandardBackup, second)?,
            "backup, {fails}"
        );
    }
    Ok(())
}

// A container with these bytes in place of its first header.
fn damaged<R: AllocGlobal>(rt: &R, bytes: &[u8], header: &[u8]) -> Result<SureStore, Fail> {
    let mut image = Vec::new(rt.alloc());
    image.extend_from_slice(header)?;
    if let Some(rest) = bytes.get(512..) {
        image.extend_from_slice(rest)?;
    }
    Ok(SureStore::new(image))
}

// By hand: the call at which the store stops, what a crash takes, and what opens the primary slot, whose
// header is all zeros before. The calls are its write and its sync; with 2 nothing fails.
#[test]
fn the_backup_opens_after_each_stop_of_a_restore(rt: HostRuntime) -> Result<(), Fail> {
    let made = damaged(&rt, container(&rt, 512).bytes(), &[0; 512])?;
    for (stop, pick, first) in [
        (0, 0, Neither),
        (0, 1, Old),
        (0, 2, Neither),
        (1, 0, Neither),
        (1, 1, Old),
        (1, 2, Neither),
        (2, 0, Old),
        (2, 1, Old),
        (2, 2, Old),
    ] {
        assert!(rt; stop < 3);
        assert!(rt; pick < 3);
        let mut disk = store(&rt, made.bytes(), None, Some(stop + 1))?;
        let ended = restored(&mut disk, StandardBackup, &password(&rt, OUTER));
        assert_eq!(rt; ended == Some(Ok(())), stop == 2, "{stop}");
        let image = disk.after_crash(pick)?;
        assert!(rt;
            is_opened_by(&rt, &image, OUTER, StandardOnly, first)?,
            "primary, {stop} {pick}"
        );
        assert!(rt;
            is_opened_by(&rt, &image, OUTER, StandardBackup, Old)?,
            "backup, {stop} {pick}"
        );
    }
    Ok(())
}

// By `scripts/independent_container.py format`, `hide` and `change`: the SHA-256 of the image after a change of the outer
// password, of the hidden one, and after a restore.
const OUTER_CHANGED: [u8; 32] = [
    0x74, 0x3e, 0x41, 0xa7, 0x75, 0xbd, 0xc9, 0x4f, 0x68, 0x37, 0x0f, 0x67, 0xfe, 0x8e, 0x74, 0x8e,
    0x0e, 0x94, 0x78, 0x3c, 0x0d, 0xf3, 0xc5, 0x14, 0xa0, 0xff, 0xb5, 0x6e, 0x71, 0xbe, 0xa3, 0xc9,
];

const HIDDEN_CHANGED: [u8; 32] = [
    0xe1, 0x15, 0xda, 0xe7, 0x6d, 0x0e, 0x95, 0x89, 0x04, 0x95, 0xa5, 0x78, 0xcd, 0x6f, 0xc3, 0x9f,
    0x62, 0x1b, 0xb9, 0xe6, 0xf5, 0xa7, 0xe1, 0x2a, 0xb0, 0x3d, 0x95, 0x4a, 0x6b, 0x53, 0x19, 0x22,
];

const RESTORED: [u8; 32] = [
    0x0c, 0x50, 0x73, 0x86, 0x78, 0x74, 0xd2, 0x9f, 0xb2, 0x11, 0x0a, 0xf8, 0xb8, 0xb1, 0x53, 0x37,
    0x56, 0x19, 0xc8, 0xf0, 0x35, 0xba, 0xac, 0x48, 0xe4, 0xaf, 0x6b, 0x3b, 0xde, 0x54, 0x6b, 0x5b,
];

#[test]
fn changed_images_are_those_of_another_program(rt: HostRuntime) -> Result<(), Fail> {
    let made = container(&rt, 512);
    for (kind, text, want) in [
        (StandardOnly, OUTER, OUTER_CHANGED),
        (StandardBackup, OUTER, OUTER_CHANGED),
        (HiddenOnly, HIDDEN, HIDDEN_CHANGED),
        (HiddenBackup, HIDDEN, HIDDEN_CHANGED),
    ] {
        let mut disk = store(&rt, made.bytes(), None, None)?;
        let ended = changed(&mut disk, kind, &password(&rt, text), &password(&rt, NEW));
        assert_eq!(rt; ended, Some(Ok(())), "{kind:?}");
        assert_eq!(rt; Sha256::digest(disk.bytes()), want, "{kind:?}");
    }
    Ok(())
}

// What was in the primary slot decides nothing: all zeros, all ones, or other bytes.
#[test]
fn restored_images_are_those_of_another_program(rt: HostRuntime) -> Result<(), Fail> {
    let made = container(&rt, 512);
    let p = password(&rt, OUTER);
    for byte in [0, 0xff, 0x56] {
        let was = damaged(&rt, made.bytes(), &[byte; 512])?;
        let mut disk = store(&rt, was.bytes(), None, None)?;
        assert_eq!(rt;
            restored(&mut disk, StandardBackup, &p),
            Some(Ok(())),
            "{byte}"
        );
        assert_eq!(rt; Sha256::digest(disk.bytes()), RESTORED, "{byte}");
    }
    Ok(())
}
