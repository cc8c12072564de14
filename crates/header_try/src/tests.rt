//! Containers with a header in several slots.
use crate::{OpenError, open_plain};
use algorithm_names::Algorithm;
use header_seal::{derive, seal};
use kdf_hmac::{Password, Prf};
use std::alloc::AllocGlobal;
use std::process::Abort;
use std::test::Fail;
use vc_header::{Fields, HEADER, MATERIAL, SALT, header_of};
use vc_layout::Kind::{Any, AnyBackup, HiddenBackup, HiddenOnly, StandardBackup, StandardOnly};
use vc_layout::Slot;
use vc_layout::Slot::{BackupHidden, BackupStandard, Hidden, Standard};
use vc_outside::MemStore;

fn password(rt: &impl Abort, text: &[u8]) -> Password {
    Password::new(text).expect(rt, "a password")
}

// A header for the one sector of the shortest container, which is the outer volume and the hidden one.
fn header(p: &Password, prf: Prf, algorithm: Algorithm, hidden_size: u64) -> [u8; HEADER] {
    let fields = Fields {
        hidden_size,
        volume_size: 512,
        start: 131_072,
        encrypted: 512,
        flags: 0,
        sector: 512,
        material: [7u8; MATERIAL],
    };
    let salt = [8u8; SALT];
    header_of(&salt, &seal(algorithm, &derive(prf, p, 1, &salt), &fields))
}

// The shortest container with headers in these slots. The call with the number `fails` fails.
fn store<R: AllocGlobal + Abort>(
    rt: &R,
    headers: &[(Slot, &[u8], Prf, Algorithm)],
    fails: u64,
) -> Result<MemStore, Fail> {
    let alloc = rt.alloc();
    let mut image = Vec::new(alloc);
    // each slot with its hidden size, and where the next one is
    for (place, hidden_size, next) in [
        (Standard, 0, 65_536),
        (Hidden, 512, 131_584),
        (BackupStandard, 0, 197_120),
        (BackupHidden, 512, 262_656),
    ] {
        for (slot, text, prf, algorithm) in headers {
            if *slot == place {
                let p = password(rt, text);
                image.extend_from_slice(&header(&p, *prf, *algorithm, hidden_size))?;
            }
        }
        image.resize(next, 0)?;
    }
    let mut listed = Vec::new(alloc);
    listed.push(fails)?;
    Ok(MemStore::new(alloc, image, listed, None, 4096, 1 << 20)?)
}

// All four slots have the same password, each with an algorithm of its own.
#[test]
fn each_kind_opens_its_first_slot(rt: HostRuntime) -> Result<(), Fail> {
    let headers = [
        (
            Standard,
            b"horse".as_slice(),
            Prf::Sha512,
            Algorithm::Serpent,
        ),
        (Hidden, b"horse".as_slice(), Prf::Sha512, Algorithm::Aes),
        (
            BackupStandard,
            b"horse".as_slice(),
            Prf::Sha256,
            Algorithm::Twofish,
        ),
        (
            BackupHidden,
            b"horse".as_slice(),
            Prf::Sha256,
            Algorithm::AesTwofish,
        ),
    ];
    let rows = [
        (Any, Standard, Prf::Sha512, Algorithm::Serpent),
        (StandardOnly, Standard, Prf::Sha512, Algorithm::Serpent),
        (HiddenOnly, Hidden, Prf::Sha512, Algorithm::Aes),
        (AnyBackup, BackupStandard, Prf::Sha256, Algorithm::Twofish),
        (
            StandardBackup,
            BackupStandard,
            Prf::Sha256,
            Algorithm::Twofish,
        ),
        (
            HiddenBackup,
            BackupHidden,
            Prf::Sha256,
            Algorithm::AesTwofish,
        ),
    ];
    for (kind, slot, prf, algorithm) in rows {
        // there is one read, so the second would fail
        let mut disk = store(&rt, &headers, 1)?;
        match open_plain(&mut disk, &password(&rt, b"horse"), 1, kind) {
            Ok(opened) => {
                assert_eq!(rt; opened.slot, slot, "{kind:?}");
                assert_eq!(rt; opened.prf, prf, "{kind:?}");
                assert_eq!(rt; opened.algorithm, algorithm, "{kind:?}");
            }
            Err(error) => assert!(rt; false, "{kind:?}: {error:?}"),
        }
    }
    Ok(())
}

// The calls of a store are numbered, so a planned fault shows how many there are.
#[test]
fn a_slot_is_read_once_and_only_if_none_before_it_opens(rt: HostRuntime) -> Result<(), Fail> {
    let headers = [
        (Standard, b"outer".as_slice(), Prf::Sha512, Algorithm::Aes),
        (Hidden, b"inner".as_slice(), Prf::Sha256, Algorithm::Aes),
        (
            BackupHidden,
            b"inner".as_slice(),
            Prf::Sha256,
            Algorithm::Aes,
        ),
    ];
    // the password, the kind, the call that fails, and the slot that is opened or why none is
    let rows = [
        (
            "in the first slot",
            b"outer".as_slice(),
            Any,
            1,
            Ok(Standard),
        ),
        (
            "the first read fails",
            b"outer".as_slice(),
            Any,
            0,
            Err(OpenError::ReadFault),
        ),
        (
            "in the second slot",
            b"inner".as_slice(),
            Any,
            2,
            Ok(Hidden),
        ),
        (
            "the second read fails",
            b"inner".as_slice(),
            Any,
            1,
            Err(OpenError::ReadFault),
        ),
        (
            "in no slot",
            b"other".as_slice(),
            Any,
            2,
            Err(OpenError::NoHeader),
        ),
        (
            "in the hidden slot",
            b"inner".as_slice(),
            HiddenOnly,
            1,
            Ok(Hidden),
        ),
        (
            "in another slot",
            b"inner".as_slice(),
            StandardOnly,
            1,
            Err(OpenError::NoHeader),
        ),
        (
            "in another slot",
            b"outer".as_slice(),
            HiddenOnly,
            1,
            Err(OpenError::NoHeader),
        ),
        (
            "no backup",
            b"outer".as_slice(),
            AnyBackup,
            2,
            Err(OpenError::NoHeader),
        ),
        (
            "in the second backup",
            b"inner".as_slice(),
            AnyBackup,
            2,
            Ok(BackupHidden),
        ),
        (
            "in its backup",
            b"inner".as_slice(),
            HiddenBackup,
            1,
            Ok(BackupHidden),
        ),
    ];
    for (name, text, kind, fails, want) in rows {
        let mut disk = store(&rt, &headers, fails)?;
        let slot = match open_plain(&mut disk, &password(&rt, text), 1, kind) {
            Ok(opened) => Ok(opened.slot),
            Err(error) => Err(error),
        };
        assert_eq!(rt; slot, want, "{name}");
    }
    Ok(())
}
