//! `serve` if a call of a client's source or sink fails, or one of the container. Counts of calls are by hand.
use nbd_wire::End;
use std::alloc::{AllocError, Global};
use std::process::Abort;
use std::test::Fail;
use std::thread::Threads;
use trial_lines::{
    DISCONNECT, Ended, Link, NEVER, SERVE, Turn, WHOLE, Way, client, container, payload_byte,
    replies_to, sent_by, serve, shown,
};
use vc_app::Status;
use vc_outside::{NoGate, Store};

static CAT: &str = "cat|c1.vc|0|16|--password|correct horse|--pim|1|--kind|standard";

// What a client has to have after it was served.
#[derive(Drop)]
struct Wanted {
    end: End,
    replies: u64,
    taken: Vec<u8>,
}

// Client c writes the sector c and reads it.
fn turns_of(c: u64) -> [Turn; 2] {
    let offset = c.saturating_mul(512);
    [
        Turn(0, 1, offset, 512, 0, 0xaa),
        Turn(0, 0, offset, 512, 0, 0),
    ]
}

fn writer(alloc: Global, c: u64, cut: usize, fails: u64, way: Way) -> Result<Link, AllocError> {
    let mut sent = sent_by(alloc, &turns_of(c))?;
    sent.extend_from_slice(DISCONNECT)?;
    client(alloc, sent, cut, fails, way)
}

// All 16 clients ended so, and the volume begins with these bytes. `fails` says whether client 0 failed.
fn expect_ended<R: AllocGlobal + Abort + Threads + Sync>(
    rt: &R,
    ended: &Ended,
    fails: bool,
    wanted: &[Wanted],
    plain: &[u8],
) -> Result<(), Fail> {
    let status = if fails {
        Status::ClientFault(0)
    } else {
        Status::Done
    };
    assert_eq!(rt; ended.status, status);
    assert_eq!(rt;
        (ended.clients.len(), ended.ends.len(), ended.replies.len()),
        (16, 16, 16)
    );
    for (c, want) in wanted.iter().enumerate() {
        assert!(rt; ended.ends.get(c) == Some(&want.end), "client {c}");
        assert!(rt; ended.replies.get(c) == Some(&want.replies), "client {c}");
        match ended.clients.get(c) {
            Some(link) => assert!(rt; link.sink.taken == want.taken, "client {c}"),
            None => assert!(rt; false, "client {c}"),
        }
    }
    assert!(rt; shown(rt, CAT, ended.disk.bytes())?.as_slice() == plain);
    Ok(())
}

// How many bytes a call of a source gives at most, and by how many calls the write was taken, the read and the
// disconnect: their heads have 28 bytes, and the payload has 512. A head is read whole before a payload is begun.
const SOURCES: [(usize, u64, u64, u64); 2] = [(1, 540, 568, 596), (5, 109, 115, 121)];

// Sixteen clients at a time, each of which has another call that fails.
#[test]
fn a_failing_source_ends_its_own_client(rt: HostRuntime) -> Result<(), Fail> {
    let alloc = rt.alloc();
    let image = container(&rt, false)?;
    let whole = shown(&rt, CAT, &image)?;
    for (cut, write, read, all) in SOURCES {
        for round in 0..all.div_ceil(16).saturating_add(1) {
            let first = round.saturating_mul(16);
            let mut plain = whole.clone()?;
            let mut wanted = Vec::new(alloc);
            let mut clients = Vec::new(alloc);
            for c in 0..16 {
                let fails = first.saturating_add(c);
                let turns = turns_of(c);
                let count: usize = if fails < write {
                    0
                } else if fails < read {
                    1
                } else {
                    2
                };
                let done = &turns[..count.min(2)];
                wanted.push(Wanted {
                    end: if fails < all {
                        End::ReadFault
                    } else {
                        End::Done
                    },
                    replies: done.len() as u64,
                    taken: replies_to(alloc, &mut plain, done)?,
                })?;
                clients.push(writer(alloc, c, cut, fails, WHOLE)?)?;
            }
            let ended = serve(&rt, SERVE, &image, NEVER, clients, &NoGate)?;
            expect_ended(&rt, &ended, first < all, &wanted, &plain)?;
        }
    }
    Ok(())
}

// How many bytes a call of a sink takes at most, and by how many calls the 16 bytes of the first reply were taken, and
// the 528 of the second.
const SINKS: [(usize, u64, u64); 2] = [(1, 16, 544), (5, 4, 110)];

#[test]
fn a_failing_sink_ends_its_own_client(rt: HostRuntime) -> Result<(), Fail> {
    let alloc = rt.alloc();
    let image = container(&rt, false)?;
    let whole = shown(&rt, CAT, &image)?;
    for (cut, write, all) in SINKS {
        for round in 0..all.div_ceil(16).saturating_add(1) {
            let first = round.saturating_mul(16);
            let mut plain = whole.clone()?;
            let mut wanted = Vec::new(alloc);
            let mut clients = Vec::new(alloc);
            for c in 0..16 {
                let fails = first.saturating_add(c);
                let turns = turns_of(c);
                // a write is done before its reply is written
                let mut taken = replies_to(alloc, &mut plain, &turns)?;
                let pieces = fails.saturating_sub(write) as usize;
                taken.truncate(if fails < write {
                    cut.saturating_mul(fails as usize)
                } else {
                    cut.saturating_mul(pieces).saturating_add(16)
                });
                let (end, replies) = if fails < write {
                    (End::WriteFault, 0)
                } else if fails < all {
                    (End::WriteFault, 1)
                } else {
                    (End::Done, 2)
                };
                wanted.push(Wanted {
                    end,
                    replies,
                    taken,
                })?;
                let way = Way::PiecesFail(cut, fails);
                clients.push(writer(alloc, c, 4096, NEVER, way)?)?;
            }
            let ended = serve(&rt, SERVE, &image, NEVER, clients, &NoGate)?;
            expect_ended(&rt, &ended, first < all, &wanted, &plain)?;
        }
    }
    Ok(())
}

static PROTECT: &str =
    "serve|c1.vc|--password|correct horse|--pim|1|--protect|hidden horse|--protect-pim|1";

static CAT_ONE: &str = "cat|c1.vc|0|1|--password|correct horse|--pim|1|--kind|standard";

// The call of the container that fails, the exit status, how many requests are replied to, the errors of a write with
// FUA, of a read and of a flush, and how many bytes of the write are stored. The calls are the two headers, the write
// and its flush, the read, the flush, and the last sync. A write that fails stores its first half.
const CALLS: [(u64, u8, usize, [u32; 3], usize); 8] = [
    (0, 7, 0, [0, 0, 0], 0),
    (1, 7, 0, [0, 0, 0], 0),
    (2, 0, 3, [5, 0, 0], 256),
    (3, 0, 3, [5, 0, 0], 512),
    (4, 0, 3, [0, 5, 0], 512),
    (5, 0, 3, [0, 0, 5], 512),
    (6, 7, 3, [0, 0, 0], 512),
    (7, 0, 3, [0, 0, 0], 512),
];

#[test]
fn a_failing_container_is_replied_to_or_ends_the_call(rt: HostRuntime) -> Result<(), Fail> {
    let alloc = rt.alloc();
    let image = container(&rt, true)?;
    let whole = shown(&rt, CAT_ONE, &image)?;
    for (fails, code, answered, errors, stored) in CALLS {
        let [write, read, flush] = errors;
        let turns = [
            Turn(1, 1, 0, 512, write, 0x11),
            Turn(0, 0, 0, 512, read, 0),
            Turn(0, 3, 0, 0, flush, 0),
        ];
        let mut plain = whole.clone()?;
        for byte in plain.iter_mut().take(stored) {
            *byte = payload_byte(0x11, 0);
        }
        let done = &turns[..answered.min(3)];
        let want = replies_to(alloc, &mut plain, done)?;
        let mut clients = Vec::new(alloc);
        clients.push(client(alloc, sent_by(alloc, &turns)?, 4096, NEVER, WHOLE)?)?;
        let ended = serve(&rt, PROTECT, &image, fails, clients, &NoGate)?;
        let line = if code == 0 { "client 0 done 3\n" } else { "" };
        assert_eq!(rt; ended.status.code(), code, "call {fails}");
        assert_eq!(rt; ended.out.bytes(), line.as_bytes(), "call {fails}");
        assert_eq!(rt; ended.disk.faults() == 0, fails == 7, "call {fails}");
        assert_eq!(rt; ended.clients.len(), 1, "call {fails}");
        for link in ended.clients.iter() {
            assert!(rt; link.sink.taken == want, "call {fails}");
        }
        assert_eq!(rt; ended.ends.len() == 1, answered == 3, "call {fails}");
        let bytes = ended.disk.bytes();
        assert!(rt; shown(&rt, CAT_ONE, bytes)? == plain, "call {fails}");
        if code == 0 {
            for pick in 0..3 {
                let left = ended.disk.after_crash(pick)?;
                assert!(rt; left.as_slice() == bytes, "call {fails}, crash {pick}");
            }
        }
    }
    Ok(())
}
