//! Clients with a handshake before their session. Bytes are by hand from `docs/PROTOCOL.md`, "The handshake".
ghost use Rattle.std.specs.Prelude.{◌≤◌};

use super::{NEVER, Plan, SMALL, Turned, ask, is_full, replies_of};
use crate::{Served, serve_hand};
use cipher_base::Xts;
use io_queue::Volume;
use nbd_hand::{HandEnd, Refusal};
use nbd_wire::End;
use std::alloc::{AllocError, AllocGlobal, Global};
use std::process::Abort;
use std::sync::Wait;
use std::test::Fail;
use std::thread::Threads;
use vc_layout::Geometry;
use vc_outside::{Client, MemSink, MemSource, NoGate, SureStore};

// What the server begins with: NBDMAGIC, IHAVEOPT and its flags.
const GREETING: &[u8] = b"NBDMAGICIHAVEOPT\x00\x03";

// The client's flags 3, and then option 7 for the export whose name is empty.
const GO: &[u8] =
    b"\x00\x00\x00\x03IHAVEOPT\x00\x00\x00\x07\x00\x00\x00\x06\x00\x00\x00\x00\x00\x00";

// The flags, and then option 2.
const ABORT: &[u8] = b"\x00\x00\x00\x03IHAVEOPT\x00\x00\x00\x02\x00\x00\x00\x00";

// The flags, and the start of an option.
const CUT: &[u8] = b"\x00\x00\x00\x03IHAVE";

// Flags of which one is unknown.
const FLAGS: &[u8] = b"\x00\x00\x00\x04";

// The reply to option 7: the size of four sectors of 512 bytes and the flags of the export, and then the end of the
// reply.
const GONE: &[u8] =
    b"\x00\x03\xe8\x89\x04\x55\x65\xa9\x00\x00\x00\x07\x00\x00\x00\x03\x00\x00\x00\x0c\x00\x00\
\x00\x00\x00\x00\x00\x00\x08\x00\x00\x0d\x00\x03\xe8\x89\x04\x55\x65\xa9\x00\x00\x00\x07\x00\x00\x00\x01\x00\x00\x00\x00";

// The reply to option 2.
const ABORTED: &[u8] =
    b"\x00\x03\xe8\x89\x04\x55\x65\xa9\x00\x00\x00\x02\x00\x00\x00\x01\x00\x00\x00\x00";

// How the handshake of a client ends, and what it is sent after the greeting.
struct Case {
    name: &'static str,
    hand: &'static [u8],
    // Whether requests follow.
    asks: bool,
    // The calls of its source and of its sink that fail.
    source: u64,
    sink: u64,
    want: HandEnd,
    sent: &'static [u8],
}

const CASES: &[Case] = &[
    Case {
        name: "aborted",
        hand: ABORT,
        asks: true,
        source: NEVER,
        sink: NEVER,
        want: HandEnd::Aborted,
        sent: ABORTED,
    },
    Case {
        name: "cut",
        hand: CUT,
        asks: false,
        source: NEVER,
        sink: NEVER,
        want: HandEnd::Cut,
        sent: b"",
    },
    Case {
        name: "refused",
        hand: FLAGS,
        asks: true,
        source: NEVER,
        sink: NEVER,
        want: HandEnd::Refused(Refusal::Flags(4)),
        sent: b"",
    },
    Case {
        name: "the source fails",
        hand: GO,
        asks: true,
        source: 0,
        sink: NEVER,
        want: HandEnd::ReadFault,
        sent: b"",
    },
    Case {
        name: "the sink fails after the greeting",
        hand: GO,
        asks: true,
        source: NEVER,
        sink: 1,
        want: HandEnd::WriteFault,
        sent: b"",
    },
];

// A client whose session follows.
const GOES: Case = Case {
    name: "goes on",
    hand: GO,
    asks: true,
    source: NEVER,
    sink: NEVER,
    want: HandEnd::Go,
    sent: GONE,
};

// What each client asks: it writes its byte to two sectors, and reads one of them.
const PLANS: [Plan; 2] = [
    Plan {
        byte: 1,
        first: 0,
        then: 0,
        fails: NEVER,
    },
    Plan {
        byte: 2,
        first: 2,
        then: 2,
        fails: NEVER,
    },
];

fn client_of(
    alloc: Global,
    case: &Case,
    plan: Plan,
) -> Result<Client<MemSource, MemSink>, AllocError> {
    let mut bytes = Vec::from_slice(alloc, case.hand)?;
    if case.asks {
        ask(&mut bytes, plan)?;
    }
    Ok(Client {
        source: MemSource::new(bytes, 100, Vec::from_slice(alloc, &[case.source])?),
        sink: MemSink::new(alloc, Vec::from_slice(alloc, &[case.sink])?),
    })
}

// What two clients have after they were served side by side, how their handshakes ended, and the volume's bytes then.
fn greeted<R: AllocGlobal + Abort + Threads + Wait + Sync>(
    rt: &R,
    left: &Case,
    right: &Case,
    helpers: u32,
) -> Result<(Served<MemSource, MemSink>, Vec<HandEnd>, [u8; 2048]), Fail>
    requires { helpers ≤ 8 }
{
    let alloc = rt.alloc();
    let zeros = vec![in alloc; 0u8; 4096].map_err(|_| "no memory")?;
    let cipher = Xts::new(Turned, Turned);
    let Ok((volume, mut pass)) = Volume::open(alloc, SureStore::new(zeros), SMALL, cipher, None, 2)
    else {
        return Err("no memory".into());
    };
    let [first, then] = PLANS;
    let left = client_of(alloc, left, first)?;
    let right = client_of(alloc, right, then)?;
    let clients = Vec::from_array(alloc, [left, right])?;
    let Ok((served, hands)) = serve_hand(rt, alloc, &volume, &mut pass, clients, helpers, &NoGate)
    else {
        return Err("no memory".into());
    };
    let mut bytes = [0u8; 2048];
    let read = volume.read(rt, &mut pass, 0, &mut bytes);
    assert_eq!(rt; read, Ok(()));
    // each pass is joined again
    assert!(rt; volume.close(pass).is_ok());
    Ok((served, hands, bytes))
}

// The client was sent the greeting, the replies of the case, and then these replies.
fn expect_sent<R: AllocGlobal + Abort>(
    rt: &R,
    case: &Case,
    client: &Client<MemSource, MemSink>,
    replies: &[u8],
) -> Result<(), Fail> {
    let mut want = Vec::from_slice(rt.alloc(), GREETING)?;
    want.extend_from_slice(case.sent)?;
    want.extend_from_slice(replies)?;
    assert_eq!(rt; client.sink.bytes(), want.as_slice(), "{}", case.name);
    Ok(())
}

#[test]
fn a_session_follows_a_handshake_that_ends_so(rt: HostRuntime) -> Result<(), Fail> {
    for helpers in [0, 1, 2, 3] {
        let (served, hands, bytes) = greeted(&rt, &GOES, &GOES, helpers)?;
        assert_eq!(rt; served.clients.len(), 2);
        assert_eq!(rt; hands.as_slice(), [HandEnd::Go, HandEnd::Go].as_slice());
        assert_eq!(rt; served.ends.as_slice(), [End::Done, End::Done].as_slice());
        assert_eq!(rt; served.replies.as_slice(), [2, 2].as_slice());
        assert_eq!(rt; served.callers.as_slice(), [1, 2].as_slice());
        let replies = replies_of(rt.alloc(), 1)?;
        expect_sent(&rt, &GOES, &served.clients[0], &replies)?;
        let replies = replies_of(rt.alloc(), 2)?;
        expect_sent(&rt, &GOES, &served.clients[1], &replies)?;
        assert!(rt; is_full(&bytes, 0, 1) && is_full(&bytes, 1, 1));
        assert!(rt; is_full(&bytes, 2, 2) && is_full(&bytes, 3, 2));
    }
    Ok(())
}

// The other client is served all the same.
#[test]
fn no_session_follows_another_end(rt: HostRuntime) -> Result<(), Fail> {
    for case in CASES {
        let (served, hands, bytes) = greeted(&rt, case, &GOES, 1)?;
        assert_eq!(rt; served.clients.len(), 2);
        assert_eq!(rt;
            hands.as_slice(),
            [case.want, HandEnd::Go].as_slice(),
            "{}",
            case.name
        );
        assert_eq!(rt;
            served.ends.as_slice(),
            [End::Done, End::Done].as_slice(),
            "{}",
            case.name
        );
        assert_eq!(rt;
            served.replies.as_slice(),
            [0, 2].as_slice(),
            "{}",
            case.name
        );
        assert_eq!(rt;
            served.callers.as_slice(),
            [1, 2].as_slice(),
            "{}",
            case.name
        );
        expect_sent(&rt, case, &served.clients[0], b"")?;
        let replies = replies_of(rt.alloc(), 2)?;
        expect_sent(&rt, &GOES, &served.clients[1], &replies)?;
        assert!(rt;
            !is_full(&bytes, 0, 1) && !is_full(&bytes, 1, 1),
            "{}",
            case.name
        );
        assert!(rt;
            is_full(&bytes, 2, 2) && is_full(&bytes, 3, 2),
            "{}",
            case.name
        );
    }
    Ok(())
}

// Two sectors of 4,096 bytes: the export has 8,192.
#[test]
fn an_export_has_as_many_bytes_as_its_sectors(rt: HostRuntime) -> Result<(), Fail> {
    let alloc = rt.alloc();
    let zeros = vec![in alloc; 0u8; 8704].map_err(|_| "no memory")?;
    let cipher = Xts::new(Turned, Turned);
    let Ok((volume, mut pass)) = Volume::open(alloc, SureStore::new(zeros), LARGE, cipher, None, 2)
    else {
        return Err("no memory".into());
    };
    let client = Client {
        source: MemSource::new(Vec::from_slice(alloc, GO)?, 1, Vec::new(alloc)),
        sink: MemSink::new(alloc, Vec::new(alloc)),
    };
    let clients = Vec::from_array(alloc, [client])?;
    let Ok((served, hands)) = serve_hand(&rt, alloc, &volume, &mut pass, clients, 0, &NoGate) else {
        return Err("no memory".into());
    };
    assert_eq!(rt; hands.as_slice(), [HandEnd::Go].as_slice());
    assert_eq!(rt;
        (served.clients.len(), served.replies.as_slice()),
        (1, [0].as_slice())
    );
    // behind the greeting, the reply's head and the kind of the information
    let sent = served.clients[0].sink.bytes();
    assert!(rt; sent.len() >= 48);
    assert_eq!(rt; &sent[40..48], [0, 0, 0, 0, 0, 0, 0x20, 0].as_slice());
    Ok(())
}

const LARGE: Geometry = Geometry {
    start: 512,
    sectors: 2,
    sector: 4096,
};
