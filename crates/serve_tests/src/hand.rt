//! `serve --handshake` over a container in memory. What its clients send and get is by hand from `docs/PROTOCOL.md`.
use nbd_hand::Refusal;
use std::alloc::{AllocError, Global};
use std::sync::Wait;
use std::test::Fail;
use std::thread::Threads;
use trial_lines::{CAT, MIB, arguments_of, run};
use vc_app::{ServeEnd, Status, run_serve};
use vc_outside::{Client, MemSource, NoGate, SureSink, SureStore};

static SERVE: &str =
    "serve|c1.vc|--password|correct horse|--pim|1|--kind|standard|--handshake|--helpers|0";

// What a client sends: its flags, options, and the head of a read of the first sector with the cookie 1.
const FIXED: &[u8] = b"\0\0\0\x01";

const FIXED_NO_ZEROS: &[u8] = b"\0\0\0\x03";

const UNKNOWN_FLAGS: &[u8] = b"\0\0\0\x04";

const EXPORT_NAME: &[u8] = b"IHAVEOPT\0\0\0\x01\0\0\0\0";

const ABORT: &[u8] = b"IHAVEOPT\0\0\0\x02\0\0\0\0";

const LIST: &[u8] = b"IHAVEOPT\0\0\0\x03\0\0\0\0";

const GO: &[u8] = b"IHAVEOPT\0\0\0\x07\0\0\0\x06\0\0\0\0\0\0";

const STRUCTURED_REPLY: &[u8] = b"IHAVEOPT\0\0\0\x08\0\0\0\0";

const READ: &[u8] = b"\x25\x60\x95\x13\0\0\0\0\0\0\0\0\0\0\0\x01\0\0\0\0\0\0\0\0\0\0\x02\0";

// What it gets. The volume has 786,432 bytes, 0xc0000.
const GREETING: &[u8] = b"NBDMAGICIHAVEOPT\0\x03";

const EXPORT: &[u8] = b"\0\0\0\0\0\x0c\0\0\0\x0d";

const ZEROS: &[u8] = &[0; 124];

const GO_INFO: &[u8] =
    b"\0\x03\xe8\x89\x04\x55\x65\xa9\0\0\0\x07\0\0\0\x03\0\0\0\x0c\0\0\0\0\0\0\0\x0c\0\0\0\x0d";

const GO_ACK: &[u8] = b"\0\x03\xe8\x89\x04\x55\x65\xa9\0\0\0\x07\0\0\0\x01\0\0\0\0";

const UNSUPPORTED: &[u8] = b"\0\x03\xe8\x89\x04\x55\x65\xa9\0\0\0\x08\x80\0\0\x01\0\0\0\0";

const LIST_SERVER: &[u8] = b"\0\x03\xe8\x89\x04\x55\x65\xa9\0\0\0\x03\0\0\0\x02\0\0\0\x04\0\0\0\0";

const LIST_ACK: &[u8] = b"\0\x03\xe8\x89\x04\x55\x65\xa9\0\0\0\x03\0\0\0\x01\0\0\0\0";

const ABORT_ACK: &[u8] = b"\0\x03\xe8\x89\x04\x55\x65\xa9\0\0\0\x02\0\0\0\x01\0\0\0\0";

const READ_REPLY: &[u8] = b"\x67\x44\x66\x98\0\0\0\0\0\0\0\0\0\0\0\x01";

type Parts = &'static [&'static [u8]];

// What a client sends, and what it gets before the data of its reads, of which there are so many.
type Talk = (Parts, Parts, usize);

const READS: Talk = (
    &[FIXED_NO_ZEROS, GO, READ],
    &[GREETING, GO_INFO, GO_ACK, READ_REPLY],
    1,
);

const ABORTS: Talk = (
    &[FIXED_NO_ZEROS, STRUCTURED_REPLY, LIST, ABORT],
    &[GREETING, UNSUPPORTED, LIST_SERVER, LIST_ACK, ABORT_ACK],
    0,
);

const NAMES: Talk = (&[FIXED, EXPORT_NAME], &[GREETING, EXPORT, ZEROS], 0);

const REFUSED: Talk = (&[UNKNOWN_FLAGS, GO], &[GREETING], 0);

// The same client, cut inside its request and inside its option.
const CUT: Talk = (
    &[FIXED_NO_ZEROS, GO, b"\x25\x60"],
    &[GREETING, GO_INFO, GO_ACK],
    0,
);

const CUT_OPTION: Talk = (&[FIXED_NO_ZEROS, b"IHAVEOPT\0"], &[GREETING], 0);

const MAGIC: Talk = (
    &[FIXED_NO_ZEROS, GO, b"GET "],
    &[GREETING, GO_INFO, GO_ACK],
    0,
);

// The clients, how many bytes their sources give at most at a time, the status, and the lines.
const ROWS: &[(&str, &[Talk], usize, Status, &str)] = &[
    (
        "all end well",
        &[READS, ABORTS, NAMES],
        1,
        Status::Done,
        "client 0 done 1\nclient 1 aborted 0\nclient 2 done 0\n",
    ),
    (
        "the second is refused",
        &[READS, REFUSED, CUT],
        usize::MAX,
        Status::ClientHand(1, Refusal::Flags(4)),
        "client 0 done 1\nclient 1 refused 0\nclient 2 cut 0\n",
    ),
    (
        "the second is cut in an option",
        &[ABORTS, CUT_OPTION, MAGIC, REFUSED],
        1,
        Status::ClientCut(1),
        "client 0 aborted 0\nclient 1 cut 0\nclient 2 magic 0\nclient 3 refused 0\n",
    ),
    (
        "the first has a bad magic",
        &[MAGIC, REFUSED],
        usize::MAX,
        Status::ClientMagic(0, *b"GET "),
        "client 0 magic 0\nclient 1 refused 0\n",
    ),
];

fn joined(alloc: Global, parts: &[&[u8]]) -> Result<Vec<u8>, AllocError> {
    let mut bytes = Vec::new(alloc);
    for part in parts {
        bytes.extend_from_slice(part)?;
    }
    Ok(bytes)
}

// The status, the lines and the clients of a call, whose sources give at most so many bytes at a time.
fn serve<R: Threads + Wait + Sync + AllocGlobal>(
    rt: &R,
    image: &[u8],
    talks: &[Talk],
    cut: usize,
) -> Result<(Status, SureSink, Vec<Client<MemSource, SureSink>>), AllocError> {
    let alloc = rt.alloc();
    let arguments = arguments_of(alloc, SERVE)?;
    let mut clients = Vec::new(alloc);
    for (sent, _, _) in talks {
        clients.push(Client {
            source: MemSource::new(joined(alloc, sent)?, cut.max(1), Vec::new(alloc)),
            sink: SureSink::new(alloc),
        })?;
    }
    let disk = SureStore::new(Vec::from_slice(alloc, image)?);
    let out = SureSink::new(alloc);
    let ServeEnd {
        status,
        disk: _disk,
        clients,
        out,
        hands: _hands,
        ends: _ends,
        replies: _replies,
        callers: _callers,
        pass: _pass,
    } = run_serve(rt, alloc, arguments.as_slice(), disk, clients, out, &NoGate);
    Ok((status, out, clients))
}

#[test]
fn a_handshake_comes_before_the_session(rt: HostRuntime) -> Result<(), Fail> {
    let (_status, disk, _out) = run(&rt, MIB, SureStore::new(Vec::new(rt.alloc())))?;
    let image = Vec::from_slice(rt.alloc(), disk.bytes())?;
    let (_status, _disk, sector) = run(&rt, CAT, disk)?;
    for (case, talks, cut, status, lines) in ROWS {
        let (ended, out, clients) = serve(&rt, image.as_slice(), talks, *cut)?;
        assert_eq!(rt; ended, *status, "{case}");
        assert_eq!(rt; out.bytes(), lines.as_bytes(), "{case}");
        for (client, (_, got, reads)) in clients.iter().zip(*talks) {
            let mut wanted = joined(rt.alloc(), got)?;
            for _ in 0..*reads {
                wanted.extend_from_slice(sector.bytes())?;
            }
            assert_eq!(rt; client.sink.bytes(), wanted.as_slice(), "{case}");
        }
    }
    Ok(())
}
