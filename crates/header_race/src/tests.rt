//! Races on containers with a header in several slots, by hand for each what has to win.

use crate::{Kind, OpenError, open_race};
use algorithm_names::Algorithm;
use header_seal::{derive, seal};
use kdf_hmac::{Password, Prf};
use std::alloc::AllocGlobal;
use std::hint::spin_loop;
use std::process::Abort;
use std::sync::atomic::AtomicU64;
use std::sync::atomic::Ordering::SeqCst;
use std::test::Fail;
use std::thread::Threads;
use vc_header::{Fields, HEADER, MATERIAL, SALT, header_of};
use vc_layout::Kind::{Any, AnyBackup, HiddenBackup, HiddenOnly, StandardBackup, StandardOnly};
use vc_layout::Slot;
use vc_layout::Slot::{BackupHidden, BackupStandard, Hidden, Standard};
use vc_outside::{Gate, MemStore, NoGate};

/// No call of the store has this number.
const NEVER: u64 = 100;

// Work that passes the point `hold` waits there until other work has passed the point `until`, or `turns` are used.
#[derive(Drop)]
struct Held {
    hold: u32,
    until: u32,
    turns: u64,
    passed: AtomicU64,
    gave_up: AtomicU64,
}

impl Held {
    fn new(hold: u32, until: u32) -> Held {
        Held {
            hold,
            until,
            turns: 1_000_000_000,
            passed: AtomicU64::new(0),
            gave_up: AtomicU64::new(0),
        }
    }
}

impl Gate for Held {
    fn pass(&self, point: u32) {
        if point == self.until {
            self.passed.store(1, SeqCst);
        }
        if point == self.hold {
            for _ in 0..self.turns {
                if self.passed.load(SeqCst) == 1 {
                    return;
                }
                spin_loop();
            }
            self.gave_up.store(1, SeqCst);
        }
    }
}

fn password(rt: &impl Abort, text: &[u8]) -> Password {
    Password::new(text).expect(rt, "a password")
}

// A header for the one sector of the shortest container, which is the outer volume and the hidden one.
fn header(p: &Password, prf: Prf, algorithm: Algorithm, hidden_size: u64) -> [u8; HEADER] {
    let fields = Fields {
        hidden_size,
        volume_size: 512,
        start: 131_072,
        encrypted: 512,
        flags: 0,
        sector: 512,
        material: [7u8; MATERIAL],
    };
    let salt = [8u8; SALT];
    header_of(&salt, &seal(algorithm, &derive(prf, p, 1, &salt), &fields))
}

// The shortest container with headers in these slots. The call with the number `fails` fails.
fn store<R: AllocGlobal + Abort>(
    rt: &R,
    headers: &[(Slot, &[u8], Prf, Algorithm)],
    fails: u64,
) -> Result<MemStore, Fail> {
    let alloc = rt.alloc();
    let mut image = Vec::new(alloc);
    // each slot with its hidden size, and where the next one is
    for (place, hidden_size, next) in [
        (Standard, 0, 65_536),
        (Hidden, 512, 131_584),
        (BackupStandard, 0, 197_120),
        (BackupHidden, 512, 262_656),
    ] {
        for (slot, text, prf, algorithm) in headers {
            if *slot == place {
                let p = password(rt, text);
                image.extend_from_slice(&header(&p, *prf, *algorithm, hidden_size))?;
            }
        }
        image.resize(next, 0)?;
    }
    let mut listed = Vec::new(alloc);
    listed.push(fails)?;
    Ok(MemStore::new(alloc, image, listed, None, 4096, 1 << 20)?)
}

// What a race opens: slot, PRF and algorithm.
fn raced<R: AllocGlobal + Abort + Threads + Sync, G: Gate>(
    rt: &R,
    headers: &[(Slot, &[u8], Prf, Algorithm)],
    fails: u64,
    text: &[u8],
    kind: Kind,
    workers: u32,
    gate: &G,
) -> Result<Result<(Slot, Prf, Algorithm), OpenError>, Fail> {
    if workers == 0 || workers > 8 {
        return Ok(Err(OpenError::NoMemory));
    }
    let mut disk = store(rt, headers, fails)?;
    let p = password(rt, text);
    match open_race(rt, rt.alloc(), &mut disk, &p, 1, kind, workers, gate) {
        Ok(opened) => Ok(Ok((opened.slot, opened.prf, opened.algorithm))),
        Err(error) => Ok(Err(error)),
    }
}

// A race for both slots has that result, for each number of workers.
fn expect_for_all<R: AllocGlobal + Abort + Threads + Sync>(
    rt: &R,
    name: &str,
    headers: &[(Slot, &[u8], Prf, Algorithm)],
    text: &[u8],
    want: Result<(Slot, Prf, Algorithm), OpenError>,
) -> Result<(), Fail> {
    for workers in [1, 2, 3, 4, 8] {
        let got = raced(rt, headers, NEVER, text, Any, workers, &NoGate)?;
        assert_eq!(rt; got, want, "{name}, {workers} workers");
    }
    Ok(())
}

#[test]
fn the_first_valid_candidate_wins_for_every_number_of_workers(rt: HostRuntime) -> Result<(), Fail> {
    let horse = b"horse".as_slice();
    let first = [(Standard, horse, Prf::Sha512, Algorithm::Aes)];
    let opens = Ok((Standard, Prf::Sha512, Algorithm::Aes));
    expect_for_all(&rt, "the first", &first, horse, opens)?;
    let last = [(Hidden, horse, Prf::Sha256, Algorithm::TwofishSerpent)];
    let opens = Ok((Hidden, Prf::Sha256, Algorithm::TwofishSerpent));
    expect_for_all(&rt, "the last", &last, horse, opens)?;
    // the outer header's candidate is 12, the hidden one's is 16
    let two = [
        (Standard, horse, Prf::Sha256, Algorithm::AesTwofishSerpent),
        (Hidden, horse, Prf::Sha512, Algorithm::Aes),
    ];
    let opens = Ok((Standard, Prf::Sha256, Algorithm::AesTwofishSerpent));
    expect_for_all(&rt, "two at once", &two, horse, opens)?;
    expect_for_all(
        &rt,
        "a wrong password",
        &two,
        b"house",
        Err(OpenError::NoHeader),
    )
}

#[test]
fn each_kind_races_for_its_own_slots(rt: HostRuntime) -> Result<(), Fail> {
    // a password for each slot
    let headers = [
        (Standard, b"a".as_slice(), Prf::Sha512, Algorithm::Serpent),
        (Hidden, b"b".as_slice(), Prf::Sha256, Algorithm::Aes),
        (
            BackupStandard,
            b"c".as_slice(),
            Prf::Sha256,
            Algorithm::Twofish,
        ),
        (
            BackupHidden,
            b"d".as_slice(),
            Prf::Sha512,
            Algorithm::AesTwofish,
        ),
    ];
    let rows = [
        (
            StandardOnly,
            b"a".as_slice(),
            Ok((Standard, Prf::Sha512, Algorithm::Serpent)),
        ),
        (StandardOnly, b"b".as_slice(), Err(OpenError::NoHeader)),
        (
            HiddenOnly,
            b"b".as_slice(),
            Ok((Hidden, Prf::Sha256, Algorithm::Aes)),
        ),
        (
            AnyBackup,
            b"d".as_slice(),
            Ok((BackupHidden, Prf::Sha512, Algorithm::AesTwofish)),
        ),
        (
            StandardBackup,
            b"c".as_slice(),
            Ok((BackupStandard, Prf::Sha256, Algorithm::Twofish)),
        ),
        (
            HiddenBackup,
            b"d".as_slice(),
            Ok((BackupHidden, Prf::Sha512, Algorithm::AesTwofish)),
        ),
        (HiddenBackup, b"c".as_slice(), Err(OpenError::NoHeader)),
    ];
    for (kind, text, want) in rows {
        for workers in [1, 2, 4] {
            let got = raced(&rt, &headers, NEVER, text, kind, workers, &NoGate)?;
            assert_eq!(rt; got, want, "{kind:?}, {workers} workers");
        }
    }
    Ok(())
}

// The outer header's candidate is 0, the hidden one's is 16. With two workers, one has the derivations 0 and 1, the
// other 2 and 3, one after the other.
#[test]
fn the_least_wins_whoever_ends_first(rt: HostRuntime) -> Result<(), Fail> {
    let headers = [
        (Standard, b"horse".as_slice(), Prf::Sha512, Algorithm::Aes),
        (Hidden, b"horse".as_slice(), Prf::Sha512, Algorithm::Aes),
    ];
    let rows = [
        (
            "the greater ends before the least begins",
            100_000,
            200_003,
            2,
        ),
        (
            "the least ends before the greater begins",
            100_002,
            200_001,
            2,
        ),
        ("the last begins before the first", 100_000, 200_003, 4),
        ("the first begins before the last", 100_003, 200_000, 4),
    ];
    for (name, hold, until, workers) in rows {
        let gate = Held::new(hold, until);
        let got = raced(&rt, &headers, NEVER, b"horse", Any, workers, &gate)?;
        assert_eq!(rt; got, Ok((Standard, Prf::Sha512, Algorithm::Aes)), "{name}");
        assert_eq!(rt; gate.gave_up.load(SeqCst), 0, "{name}");
    }
    Ok(())
}

// Each header is read once, before any derivation: so a read of the second slot fails the call even if the first
// slot would open.
#[test]
fn a_failed_read_is_a_read_fault(rt: HostRuntime) -> Result<(), Fail> {
    let headers = [(Standard, b"horse".as_slice(), Prf::Sha512, Algorithm::Aes)];
    let opens = Ok((Standard, Prf::Sha512, Algorithm::Aes));
    let rows = [
        (Any, 0, Err(OpenError::ReadFault)),
        (Any, 1, Err(OpenError::ReadFault)),
        (Any, 2, opens),
        (StandardOnly, 0, Err(OpenError::ReadFault)),
        (StandardOnly, 1, opens),
    ];
    for (kind, fails, want) in rows {
        for workers in [1, 4] {
            let got = raced(&rt, &headers, fails, b"horse", kind, workers, &NoGate)?;
            assert_eq!(rt;
                got,
                want,
                "{kind:?}, call {fails} fails, {workers} workers"
            );
        }
    }
    Ok(())
}
