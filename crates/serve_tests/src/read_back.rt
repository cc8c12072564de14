//! `serve` over a container in memory. What its clients send and get is by hand from `docs/PROTOCOL.md`.
ghost use Rattle.std.specs.Prelude.{◌≡◌};

use std::alloc::{AllocError, Global};
use std::sync::Wait;
use std::test::Fail;
use std::thread::Threads;
use trial_lines::{CAT, FORMAT, SERVE, arguments_of, run};
use vc_app::{ServeEnd, Status, run_serve};
use vc_outside::{Client, NoGate, SureSink, SureSource, SureStore};

// The head of a write of sector 0 with FUA and the cookie 7, a read of it with the cookie 8, and a disconnect.
static WRITE: &[u8] =
    b"\x25\x60\x95\x13\x00\x01\x00\x01\x00\x00\x00\x00\x00\x00\x00\x07\x00\x00\x00\x00\x00\x00\x00\x00\x00\x00\x02\x00";

static READ: &[u8] =
    b"\x25\x60\x95\x13\x00\x00\x00\x00\x00\x00\x00\x00\x00\x00\x00\x08\x00\x00\x00\x00\x00\x00\x00\x00\x00\x00\x02\x00";

static DISCONNECT: &[u8] =
    b"\x25\x60\x95\x13\x00\x00\x00\x02\x00\x00\x00\x00\x00\x00\x00\x09\x00\x00\x00\x00\x00\x00\x00\x00\x00\x00\x00\x00";

// Both are replied to without an error. The data of the read follows.
static REPLIES: &[u8] =
    b"\x67\x44\x66\x98\x00\x00\x00\x00\x00\x00\x00\x00\x00\x00\x00\x07\x67\x44\x66\x98\x00\x00\x00\x00\x00\x00\x00\x00\x00\x00\x00\x08";

const DATA: [u8; 512] = [0xaa; 512];

// How many bytes a client sends, and how many it gets: all, or all but the last byte of the write's payload.
const WHOLE: (usize, usize) = (596, 544);

const CUT: (usize, usize) = (539, 0);

// A client that sends the first `len` bytes of the three requests.
fn client(alloc: Global, len: usize) -> Result<Client<SureSource, SureSink>, AllocError> {
    let mut sent = Vec::from_slice(alloc, WRITE)?;
    sent.extend_from_slice(&DATA)?;
    sent.extend_from_slice(READ)?;
    sent.extend_from_slice(DISCONNECT)?;
    sent.truncate(len);
    Ok(Client {
        source: SureSource::new(sent),
        sink: SureSink::new(alloc),
    })
}

// What serving such clients leaves: the status, the container, the clients and the output.
#[derive(Drop)]
struct Left {
    status: Status,
    disk: SureStore,
    clients: Vec<Client<SureSource, SureSink>>,
    out: SureSink,
}

fn serve<R: Threads + Wait + Sync + AllocGlobal>(
    rt: &R,
    disk: SureStore,
    sessions: &[(usize, usize)],
) -> Result<Left, AllocError> {
    let alloc = rt.alloc();
    let arguments = arguments_of(alloc, SERVE)?;
    let mut clients = Vec::new(alloc);
    for (len, _) in sessions {
        clients.push(client(alloc, *len)?)?;
    }
    let out = SureSink::new(alloc);
    let ServeEnd {
        status,
        disk,
        clients,
        out,
        hands: _hands,
        ends: _ends,
        replies: _replies,
        callers: _callers,
        pass: _pass,
    } = run_serve(rt, alloc, arguments.as_slice(), disk, clients, out, &NoGate);
    Ok(Left {
        status,
        disk,
        clients,
        out,
    })
}

// The status, the lines, and what each client sends and gets.
const ROWS: &[(&str, Status, &str, &[(usize, usize)])] = &[
    ("one client", Status::Done, "client 0 done 2\n", &[WHOLE]),
    (
        "the second is cut",
        Status::ClientCut(1),
        "client 0 done 2\nclient 1 cut 0\n",
        &[WHOLE, CUT],
    ),
];

#[test]
fn a_client_reads_what_it_wrote_and_so_does_cat(rt: HostRuntime) -> Result<(), Fail> {
    let (_status, empty, _out) = run(&rt, FORMAT, SureStore::new(Vec::new(rt.alloc())))?;
    let mut replies = Vec::from_slice(rt.alloc(), REPLIES)?;
    replies.extend_from_slice(&DATA)?;
    for (case, status, lines, sessions) in ROWS {
        let disk = SureStore::new(Vec::from_slice(rt.alloc(), empty.bytes())?);
        let left = serve(&rt, disk, sessions)?;
        assert_eq!(rt; left.status, *status, "{case}");
        assert_eq!(rt; left.out.bytes(), lines.as_bytes(), "{case}");
        for (client, (_, len)) in left.clients.iter().zip(*sessions) {
            let got = client.sink.bytes();
            assert_eq!(rt; got.len(), *len, "{case}");
            assert!(rt; replies.starts_with(got), "{case}");
        }
        let (_status, _disk, out) = run(&rt, CAT, left.disk)?;
        assert_eq!(rt; out.bytes(), DATA.as_slice(), "{case}");
    }
    Ok(())
}
