//! Two clients of a volume of four sectors. Requests and replies are by hand from `docs/PROTOCOL.md`.
ghost use Rattle.std.specs.Prelude.{◌≡◌, ◌≤◌, length, reverse};
ghost use Rattle.hist_lock.specs.Known.{view};
ghost use Rattle.io_queue.specs.Pass.{IsPass, NothingOpen};
ghost use Rattle.sector_view.specs.Laws.Turned.{is_block_turned, turned_back};

mod greeted;
mod helped;

use crate::serve;
use cipher_base::{BlockCipher, Xts};
use io_queue::Volume;
use nbd_wire::End;
use std::alloc::{AllocError, AllocGlobal, Global};
use std::process::Abort;
use std::sync::Wait;
use std::test::Fail;
use std::thread::Threads;
use vc_layout::Geometry;
use vc_outside::{Client, Gate, HoldGate, MemSource, NoGate, SureSink, SureStore};

// A cipher that turns a block round.
#[derive(Clone, Copy)]
struct Turned;

impl BlockCipher for Turned {
    ghost enciphered = { λ _ b. reverse b };

    ghost deciphered = { λ _ b. reverse b };

    fn encipher(&self, block: &mut [u8; 16]) {
        block.reverse();
    }

    fn decipher(&self, block: &mut [u8; 16]) {
        block.reverse();
    }

    ghost enciphered_is_block = { λ _ b is. is_block_turned b is };

    ghost deciphered_is_block = { λ _ b is. is_block_turned b is };

    ghost deciphers = { λ _ b _. turned_back b };

    ghost enciphers = { λ _ b _. turned_back b };
}

// Four sectors of one data unit each, from byte 512 on.
const SMALL: Geometry = Geometry {
    start: 512,
    sectors: 4,
    sector: 512,
};

// The head of a request up to its cookie, and what is written of a reply before its error.
const READ: &[u8] = b"\x25\x60\x95\x13\x00\x00\x00\x00";

const WRITE: &[u8] = b"\x25\x60\x95\x13\x00\x00\x00\x01";

const DISCONNECT: &[u8] = b"\x25\x60\x95\x13\x00\x00\x00\x02";

const REPLY: &[u8] = b"\x67\x44\x66\x98";

// What a client does: it writes its byte to two sectors from `first` on, and reads the sector `then`.
#[derive(Clone, Copy)]
struct Plan {
    byte: u8,
    first: u8,
    then: u8,
    // The call of its source that fails.
    fails: u64,
}

// The requests of a client, with the cookies 1, 2 and 3.
fn ask(bytes: &mut Vec<u8>, plan: Plan) -> Result<(), AllocError> {
    for (head, cookie, first, length) in [
        (WRITE, 1, plan.first, 4),
        (READ, 2, plan.then, 2),
        (DISCONNECT, 3, 0, 0),
    ] {
        bytes.extend_from_slice(head)?;
        bytes.extend_from_slice(&[0, 0, 0, 0, 0, 0, 0, cookie])?;
        bytes.extend_from_slice(&[0, 0, 0, 0, 0, 0, 2 * (first & 63), 0])?;
        bytes.extend_from_slice(&[0, 0, length, 0])?;
        if length == 4 {
            let len = bytes.len();
            bytes.resize(len + 1024, plan.byte)?;
        }
    }
    Ok(())
}

fn client_of(alloc: Global, plan: Plan) -> Result<Client<MemSource, SureSink>, AllocError> {
    let mut bytes = Vec::new(alloc);
    ask(&mut bytes, plan)?;
    Ok(Client {
        source: MemSource::new(bytes, 100, Vec::from_slice(alloc, &[plan.fails])?),
        sink: SureSink::new(alloc),
    })
}

// What a client has after it was served: how its session ended, its replies, its number and what it was sent.
#[derive(Drop)]
struct Row {
    end: End,
    replies: u64,
    caller: u64,
    sent: Vec<u8>,
}

// What both clients have after they were served side by side, and the volume's bytes then.
fn served<R: AllocGlobal + Abort + Threads + Wait + Sync, G: Gate>(
    rt: &R,
    plans: [Plan; 2],
    helpers: u32,
    gate: &G,
) -> Result<(Vec<Row>, [u8; 2048]), Fail>
    requires { helpers ≤ 8 }
{
    let alloc = rt.alloc();
    let zeros = vec![in alloc; 0u8; 4096].map_err(|_| "no memory")?;
    let cipher = Xts::new(Turned, Turned);
    let Ok((volume, mut pass)) = Volume::open(alloc, SureStore::new(zeros), SMALL, cipher, None, 2)
    else {
        return Err("no memory".into());
    };
    let [left, right] = plans;
    let left = client_of(alloc, left)?;
    let right = client_of(alloc, right)?;
    let clients = Vec::from_array(alloc, [left, right])?;
    let Ok(served) = serve(rt, alloc, &volume, &mut pass, clients, helpers, gate) else {
        return Err("no memory".into());
    };
    let mut rows = Vec::new(alloc);
    assert_eq!(rt; served.clients.len(), 2);
    assert_eq!(rt;
        (
            served.ends.len(),
            served.replies.len(),
            served.callers.len()
        ),
        (2, 2, 2)
    );
    for (i, client) in served.clients.iter().enumerate() {
        rows.push(Row {
            end: served.ends[i],
            replies: served.replies[i],
            caller: served.callers[i],
            sent: Vec::from_slice(alloc, client.sink.bytes())?,
        })?;
    }
    let mut bytes = [0u8; 2048];
    let read = volume.read(rt, &mut pass, 0, &mut bytes);
    assert_eq!(rt; read, Ok(()));
    // each pass is joined again
    assert!(rt; volume.close(pass).is_ok());
    Ok((rows, bytes))
}

// No call of a source has this number.
const NEVER: u64 = 1000;

// The replies to a write and to a read of a sector that is full of this byte.
fn replies_of(alloc: Global, byte: u8) -> Result<Vec<u8>, AllocError> {
    let mut bytes = Vec::new(alloc);
    for cookie in [1, 2] {
        bytes.extend_from_slice(REPLY)?;
        bytes.extend_from_slice(&[0, 0, 0, 0])?;
        bytes.extend_from_slice(&[0, 0, 0, 0, 0, 0, 0, cookie])?;
    }
    bytes.resize(16 + 16 + 512, byte)?;
    Ok(bytes)
}

// The client was served whole: its write and its read of a sector with its own byte, under this number.
fn expect_whole<R: AllocGlobal + Abort>(
    rt: &R,
    case: &str,
    row: &Row,
    caller: u64,
    byte: u8,
) -> Result<(), Fail> {
    let want = replies_of(rt.alloc(), byte)?;
    assert_eq!(rt;
        (row.end, row.replies, row.caller),
        (End::Done, 2, caller),
        "{case}"
    );
    assert_eq!(rt; row.sent.as_slice(), want.as_slice(), "{case}");
    Ok(())
}

// Whether the sector is full of this byte.
fn is_full(bytes: &[u8; 2048], sector: usize, byte: u8) -> bool {
    if sector >= 4 {
        return false;
    }
    bytes[512 * sector..512 * sector + 512]
        .iter()
        .all(|b| *b == byte)
}

#[test]
fn each_client_has_its_own_session_and_number(rt: HostRuntime) -> Result<(), Fail> {
    for (case, first, then, helpers) in [("apart", 2, 3, 0), ("one sector in common", 1, 2, 8)] {
        let plans = [
            Plan {
                byte: 1,
                first: 0,
                then: 0,
                fails: NEVER,
            },
            Plan {
                byte: 2,
                first,
                then,
                fails: NEVER,
            },
        ];
        let (rows, bytes) = served(&rt, plans, helpers, &NoGate)?;
        assert_eq!(rt; rows.len(), 2);
        expect_whole(&rt, case, &rows[0], 1, 1)?;
        expect_whole(&rt, case, &rows[1], 2, 2)?;
        assert!(rt; is_full(&bytes, 0, 1), "{case}");
        // no sector is half one write and half the other
        assert!(rt;
            is_full(&bytes, 1, 1) || first == 1 && is_full(&bytes, 1, 2),
            "{case}"
        );
        assert!(rt; is_full(&bytes, 2, 2), "{case}");
    }
    Ok(())
}

// A source that fails in a head or in a payload ends its own session alone, and its write isn't done.
#[test]
fn a_source_that_fails_ends_its_own_session(rt: HostRuntime) -> Result<(), Fail> {
    for (case, fails) in [("in a head", 0), ("in a payload", 1)] {
        let plans = [
            Plan {
                byte: 1,
                first: 0,
                then: 0,
                fails,
            },
            Plan {
                byte: 2,
                first: 2,
                then: 2,
                fails: NEVER,
            },
        ];
        let (rows, bytes) = served(&rt, plans, 0, &NoGate)?;
        assert_eq!(rt; rows.len(), 2);
        assert_eq!(rt;
            (rows[0].end, rows[0].replies, rows[0].caller),
            (End::ReadFault, 0, 1),
            "{case}"
        );
        assert_eq!(rt; rows[0].sent.len(), 0, "{case}");
        expect_whole(&rt, case, &rows[1], 2, 2)?;
        assert!(rt; !is_full(&bytes, 0, 1), "{case}");
        assert!(rt; is_full(&bytes, 2, 2) && is_full(&bytes, 3, 2), "{case}");
    }
    Ok(())
}

// Each client's write is held before it is enciphered until the other's has ended. By the points of `io_queue`.
#[test]
fn no_session_waits_for_another_to_end(rt: HostRuntime) -> Result<(), Fail> {
    let plans = [
        Plan {
            byte: 1,
            first: 0,
            then: 0,
            fails: NEVER,
        },
        Plan {
            byte: 2,
            first: 2,
            then: 2,
            fails: NEVER,
        },
    ];
    for (case, hold, until) in [
        ("the first is held", 1, 514),
        ("the second is held", 513, 2),
    ] {
        let gate = HoldGate::new(hold, until, 1_000_000_000);
        let (rows, _bytes) = served(&rt, plans, 0, &gate)?;
        assert_eq!(rt; rows.len(), 2);
        assert!(rt; !gate.gave_up(), "{case}");
        assert_eq!(rt; (rows[0].replies, rows[1].replies), (2, 2), "{case}");
    }
    Ok(())
}
