//! Sessions over volumes in memory. Each value is by hand from the tables of `docs/PROTOCOL.md`.
ghost use Rattle.std.specs.Prelude.{◌≡◌, ◌≤◌, refl, true, IfOk};
ghost use Rattle.frag_pool.specs.Bench.{is_empty};
ghost use Rattle.io_core.specs.State.{IsPlaced};

use super::WRITE;
use crate::session;
use cipher_base::{BlockCipher, Xts};
use frag_pool::{Bench, Pool};
use io_queue::Volume;
use nbd_wire::End;
use std::alloc::{AllocError, Global};
use std::sync::Wait;
use std::test::Fail;
use std::thread::Threads;
use vc_layout::Geometry;
use vc_outside::{Client, MemSink, MemSource, MemStore, NoGate, NoMemory, Source};

// A cipher that leaves a block as it is. Under XTS a unit then stays as it is, too.
#[derive(Clone, Copy)]
struct Same;

impl BlockCipher for Same {
    ghost enciphered = { λ _ b. b };

    ghost deciphered = { λ _ b. b };

    fn encipher(&self, block: &mut [u8; 16]) {
        let _ = block;
    }

    fn decipher(&self, block: &mut [u8; 16]) {
        let _ = block;
    }

    ghost enciphered_is_block = { λ _ b is. is };

    ghost deciphered_is_block = { λ _ b is. is };

    ghost deciphers = { λ _ b _. refl };

    ghost enciphers = { λ _ b _. refl };
}

// A container of 17 data units, all dots. Its volume begins with unit 1, and unit 4 is protected: it is sector 3
// if sectors have 512 bytes, and a part of sector 0 if they have 4096.
const CONTAINER: usize = 8704;

const PROTECTED: (u64, u64) = (4, 1);

fn geometry_of(large: bool) -> Geometry
    ensures { IsPlaced 8704 result }
{
    if large {
        return Geometry {
            start: 512,
            sectors: 2,
            sector: 4096,
        };
    }
    Geometry {
        start: 512,
        sectors: 4,
        sector: 512,
    }
}

// The numbers of the calls that fail, one of each.
#[derive(Clone, Copy)]
struct Failing {
    source: u64,
    sink: u64,
    store: u64,
}

const NEVER: u64 = u64::MAX;

const NONE: Failing = Failing {
    source: NEVER,
    sink: NEVER,
    store: NEVER,
};

// A request and its reply: flags, type, offset and length; the error, and a byte for each 512 bytes of the
// payload or of the data. The cookie is its index.
#[derive(Clone, Copy)]
struct Turn(u16, u16, u64, u32, u32, &'static [u8]);

// What a session left.
#[derive(Drop)]
struct Served {
    end: End,
    count: u64,
    link: Client<MemSource, MemSink>,
}

// An empty bench, of a pool without helpers.
fn bench_of(alloc: Global) -> Result<Bench, NoMemory>
    ensures { IfOk result (λ b. is_empty b ≡ true) }
{
    let Ok((mut benches, _helpers)) = Pool::new(alloc, 1, 0) else {
        return Err(NoMemory);
    };
    let Some(bench) = benches.pop() else {
        return Err(NoMemory);
    };
    Ok(bench)
}

// Serves these bytes, of which a call gives at most `cut`.
fn serve<R: Threads + Wait + Sync>(
    rt: &R,
    alloc: Global,
    large: bool,
    failing: Failing,
    sent: Vec<u8>,
    cut: usize,
) -> Result<Served, NoMemory>
    requires { 1 ≤ cut }
{
    let source = MemSource::new(sent, cut, one(alloc, failing.source)?);
    let sink = MemSink::new(alloc, one(alloc, failing.sink)?);
    let mut link = Client { source, sink };
    let Ok(dots) = vec![in alloc; b'.'; CONTAINER] else {
        return Err(NoMemory);
    };
    let store = MemStore::new(alloc, dots, one(alloc, failing.store)?, None, 64, CONTAINER)?;
    let geometry = geometry_of(large);
    let cipher = Xts::new(Same, Same);
    let Ok((volume, mut pass)) = Volume::open(alloc, store, geometry, cipher, Some(PROTECTED), 1)
    else {
        return Err(NoMemory);
    };
    let mut bench = bench_of(alloc)?;
    let (end, count) = session(
        rt, alloc, &volume, &mut pass, &mut bench, &NoGate, &mut link,
    );
    Ok(Served { end, count, link })
}

fn one(alloc: Global, number: u64) -> Result<Vec<u64>, NoMemory> {
    match Vec::from_slice(alloc, &[number]) {
        Ok(numbers) => Ok(numbers),
        Err(_) => Err(NoMemory),
    }
}

// Adds the head of a request.
fn push_head(bytes: &mut Vec<u8>, cookie: u64, turn: &Turn) -> Result<(), AllocError> {
    let Turn(flags, kind, offset, length, _, _) = *turn;
    bytes.extend_from_slice(b"\x25\x60\x95\x13")?;
    bytes.extend_from_slice(&flags.to_be_bytes())?;
    bytes.extend_from_slice(&kind.to_be_bytes())?;
    bytes.extend_from_slice(&cookie.to_be_bytes())?;
    bytes.extend_from_slice(&offset.to_be_bytes())?;
    bytes.extend_from_slice(&length.to_be_bytes())
}

// Adds 512 of each of these bytes, but `length` bytes at most.
fn push_sectors(bytes: &mut Vec<u8>, sectors: &[u8], length: u32) -> Result<(), AllocError> {
    let mut left = length as usize;
    for byte in sectors {
        let part = left.min(512);
        bytes.extend_from_slice(&[*byte; 512][..part])?;
        left -= part;
    }
    Ok(())
}

// Adds a reply without data.
fn push_reply(bytes: &mut Vec<u8>, cookie: u64, error: u32) -> Result<(), AllocError> {
    bytes.extend_from_slice(b"\x67\x44\x66\x98")?;
    bytes.extend_from_slice(&error.to_be_bytes())?;
    bytes.extend_from_slice(&cookie.to_be_bytes())
}

// The requests, with the payloads of writes.
fn sent_by(alloc: Global, turns: &[Turn]) -> Result<Vec<u8>, AllocError> {
    let mut bytes = Vec::new(alloc);
    for (i, turn) in turns.iter().enumerate() {
        push_head(&mut bytes, i as u64, turn)?;
        let Turn(_, kind, _, length, _, sectors) = *turn;
        if kind == 1 {
            push_sectors(&mut bytes, sectors, length)?;
        }
    }
    Ok(bytes)
}

// The replies, but with these errors. That to a read has data if its error is 0.
fn replies_to(alloc: Global, turns: &[Turn], errors: &[u32]) -> Result<Vec<u8>, AllocError> {
    let mut bytes = Vec::new(alloc);
    for (i, (turn, error)) in turns.iter().zip(errors).enumerate() {
        push_reply(&mut bytes, i as u64, *error)?;
        let Turn(_, kind, _, length, _, sectors) = *turn;
        if kind == 0 && *error == 0 {
            push_sectors(&mut bytes, sectors, length)?;
        }
    }
    Ok(bytes)
}

const SMALL: &[(&str, &[Turn])] = &[
    ("a read", &[Turn(0, 0, 0, 512, 0, b".")]),
    ("a read with FUA", &[Turn(1, 0, 512, 1536, 0, b"...")]),
    (
        "a write, and reads of it",
        &[
            Turn(0, 1, 512, 1024, 0, b"ab"),
            Turn(0, 0, 0, 2048, 0, b".ab."),
            Turn(0, 0, 1024, 512, 0, b"b"),
        ],
    ),
    (
        "a write with FUA",
        &[Turn(1, 1, 0, 512, 0, b"a"), Turn(0, 0, 0, 1024, 0, b"a.")],
    ),
    ("a flush", &[Turn(0, 3, 0, 0, 0, b"")]),
    ("a flush of a range", &[Turn(1, 3, 511, 513, 0, b"")]),
    (
        "past the end",
        &[
            Turn(0, 0, 2048, 512, 22, b""),
            Turn(0, 0, 1536, 1024, 22, b""),
            Turn(0, 1, 2048, 512, 28, b"a"),
            Turn(0, 1, 1536, 1024, 28, b"aa"),
            Turn(0, 0, 1536, 512, 0, b"."),
        ],
    ),
    (
        "malformed",
        &[
            Turn(2, 0, 0, 512, 22, b""),
            Turn(0, 4, 0, 512, 22, b""),
            Turn(4, 3, 0, 0, 22, b""),
            Turn(0, 0, 0, 0, 22, b""),
            Turn(0, 0, 0, 513, 22, b""),
            Turn(0, 0, 1, 512, 22, b""),
            Turn(0, 0, 0, 512, 0, b"."),
        ],
    ),
    (
        "malformed writes",
        &[
            Turn(2, 1, 0, 512, 22, b"a"),
            Turn(0, 1, 0, 0, 22, b""),
            Turn(0, 1, 0, 513, 22, b"aa"),
            Turn(0, 1, 1, 1024, 22, b"aa"),
            Turn(0, 0, 0, 2048, 0, b"...."),
        ],
    ),
    (
        "the protected sector",
        &[
            Turn(0, 1, 1024, 1024, 1, b"aa"),
            Turn(0, 1, 0, 512, 1, b"a"),
            Turn(0, 0, 0, 2048, 0, b"...."),
            Turn(0, 3, 0, 0, 0, b""),
            Turn(0, 1, 2048, 512, 28, b"a"),
        ],
    ),
];

const LARGE: &[(&str, &[Turn])] = &[
    (
        "reads of sectors of 4096 bytes",
        &[
            Turn(0, 0, 0, 512, 22, b""),
            Turn(0, 0, 512, 4096, 22, b""),
            Turn(0, 0, 4096, 4096, 0, b"........"),
            Turn(0, 0, 8192, 4096, 22, b""),
        ],
    ),
    (
        "writes of sectors of 4096 bytes",
        &[
            Turn(0, 1, 4096, 4096, 0, b"abcdefgh"),
            Turn(0, 0, 0, 8192, 0, b"........abcdefgh"),
            Turn(0, 1, 0, 4096, 1, b"aaaaaaaa"),
        ],
    ),
];

// However the source cuts its bytes.
#[test]
fn each_request_has_its_reply(rt: HostRuntime) -> Result<(), Fail> {
    for (large, cases) in [(false, SMALL), (true, LARGE)] {
        for (case, turns) in cases {
            let mut errors = Vec::new(rt.alloc());
            for turn in *turns {
                let Turn(_, _, _, _, error, _) = *turn;
                errors.push(error)?;
            }
            let want = replies_to(rt.alloc(), turns, &errors)?;
            for cut in [1, 27, 28, 29, 4096] {
                let sent = sent_by(rt.alloc(), turns)?;
                let served = serve(&rt, rt.alloc(), large, NONE, sent, cut)?;
                assert_eq!(rt; served.end, End::Done, "{case}, cut at {cut}");
                assert_eq!(rt; served.count, turns.len() as u64, "{case}, cut at {cut}");
                assert_eq!(rt;
                    served.link.sink.bytes(),
                    want.as_slice(),
                    "{case}, cut at {cut}"
                );
            }
        }
    }
    Ok(())
}

// A read, a write with FUA and a flush. The source is called for each head, for the payload, and at its end; the
// sink for each reply; the store for the read, the write and the two flushes.
const THREE: &[Turn] = &[
    Turn(0, 0, 0, 512, 0, b"."),
    Turn(1, 1, 0, 512, 0, b"a"),
    Turn(0, 3, 0, 0, 0, b""),
];

#[test]
fn a_failed_call_ends_the_session_or_has_its_reply(rt: HostRuntime) -> Result<(), Fail> {
    let source = |call| Failing {
        source: call,
        ..NONE
    };
    let sink = |call| Failing { sink: call, ..NONE };
    let store = |call| Failing {
        store: call,
        ..NONE
    };
    let all = [0, 0, 0].as_slice();
    let cases = [
        ("the first head", source(0), End::ReadFault, &all[..0]),
        ("the second head", source(1), End::ReadFault, &all[..1]),
        ("the payload", source(2), End::ReadFault, &all[..1]),
        ("the third head", source(3), End::ReadFault, &all[..2]),
        ("the end", source(4), End::ReadFault, all),
        ("no call of the source", source(5), End::Done, all),
        ("the first reply", sink(0), End::WriteFault, &all[..0]),
        ("the second reply", sink(1), End::WriteFault, &all[..1]),
        ("the third reply", sink(2), End::WriteFault, &all[..2]),
        ("no call of the sink", sink(3), End::Done, all),
        ("the read", store(0), End::Done, [5, 0, 0].as_slice()),
        ("the write", store(1), End::Done, [0, 5, 0].as_slice()),
        ("its flush", store(2), End::Done, [0, 5, 0].as_slice()),
        ("the flush", store(3), End::Done, [0, 0, 5].as_slice()),
        ("no call of the store", store(4), End::Done, all),
    ];
    for (case, failing, end, errors) in cases {
        let sent = sent_by(rt.alloc(), THREE)?;
        let served = serve(&rt, rt.alloc(), false, failing, sent, 4096)?;
        let want = replies_to(rt.alloc(), THREE, errors)?;
        assert_eq!(rt; served.end, end, "{case}");
        assert_eq!(rt; served.count, errors.len() as u64, "{case}");
        assert_eq!(rt; served.link.sink.bytes(), want.as_slice(), "{case}");
    }
    Ok(())
}

// What follows a read, and whether bytes of it are left in the source.
#[test]
fn a_session_ends_as_its_bytes_do(rt: HostRuntime) -> Result<(), Fail> {
    let read = [Turn(0, 0, 0, 512, 0, b".")];
    let leaving =
        b"\x25\x60\x95\x13\x00\x00\x00\x02\x00\x00\x00\x00\x00\x00\x00\x09\xff\xff\xff\xff\xff\xff\xff\xff\xff\xff\xff\xffabc";
    let cases = [
        ("nothing", b"".as_slice(), End::Done, false),
        ("a disconnect", &leaving[..28], End::Done, false),
        ("and more bytes", leaving, End::Done, true),
        ("a byte", &WRITE[..1], End::Cut, false),
        ("a magic", &WRITE[..4], End::Cut, false),
        ("a byte short of a head", &WRITE[..27], End::Cut, false),
        ("a head alone", &WRITE[..28], End::Cut, false),
        ("a part of a payload", WRITE, End::Cut, false),
        ("another magic", b"abcd", End::BadMagic(*b"abcd"), false),
    ];
    for (case, tail, end, left) in cases {
        for cut in [1, 4096] {
            let mut sent = sent_by(rt.alloc(), &read)?;
            sent.extend_from_slice(tail)?;
            let mut served = serve(&rt, rt.alloc(), false, NONE, sent, cut)?;
            let want = replies_to(rt.alloc(), &read, &[0])?;
            assert_eq!(rt; served.end, end, "{case}, cut at {cut}");
            assert_eq!(rt; served.count, 1, "{case}, cut at {cut}");
            assert_eq!(rt;
                served.link.sink.bytes(),
                want.as_slice(),
                "{case}, cut at {cut}"
            );
            let rest = served.link.source.read(&mut [0; 64]);
            assert_eq!(rt; rest != Ok(0), left, "{case}, cut at {cut}");
        }
    }
    Ok(())
}
