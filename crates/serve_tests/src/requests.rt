//! Requests of one client and how its bytes end, by hand from `docs/PROTOCOL.md`.
use std::test::Fail;
use trial_lines::{
    CAT_OUTER, DISCONNECT, NEVER, SERVE, Turn, WHOLE, client, container, replies_to, sent_by,
    serve, shown,
};
use vc_app::Status;
use vc_outside::{NoGate, Source};

// A write of 512 bytes, one of 2^32 - 1 bytes, and a head with another magic.
const WRITE: &[u8] =
    b"\x25\x60\x95\x13\x00\x00\x00\x01\x00\x00\x00\x00\x00\x00\x00\x09\x00\x00\x00\x00\x00\x00\x00\x00\x00\x00\x02\x00";

const LONGEST: &[u8] =
    b"\x25\x60\x95\x13\x00\x00\x00\x01\x00\x00\x00\x00\x00\x00\x00\x09\x00\x00\x00\x00\x00\x00\x00\x00\xff\xff\xff\xff";

const OTHER: &[u8] = b"\x25\x60\x95\x14";

// One client: its requests, what it sends after them, and so many zeros; the status, the line, and whether bytes of it
// are left.
struct Session {
    turns: &'static [Turn],
    tail: &'static [u8],
    zeros: usize,
    status: Status,
    line: &'static str,
    left: bool,
}

const SESSIONS: &[(&str, Session)] = &[
    (
        "reads",
        Session {
            turns: &[
                Turn(0, 0, 0, 512, 0, 0),
                Turn(0, 0, 0, 0, 22, 0),
                Turn(0, 0, 0, 513, 22, 0),
                Turn(1, 0, 512, 1024, 0, 0),
            ],
            tail: DISCONNECT,
            zeros: 0,
            status: Status::Done,
            line: "client 0 done 4\n",
            left: false,
        },
    ),
    (
        "writes",
        Session {
            turns: &[
                Turn(0, 1, 0x3fe00, 0x41000, 0, 0x11),
                Turn(1, 1, 0xbfe00, 512, 0, 0x22),
                Turn(0, 0, 0x7f000, 0x41000, 0, 0),
                Turn(0, 3, 1, 1, 0, 0),
            ],
            tail: b"",
            zeros: 0,
            status: Status::Done,
            line: "client 0 done 4\n",
            left: false,
        },
    ),
    (
        "malformed, and past the end",
        Session {
            turns: &[
                Turn(0, 0, 0, 0xffff_ffff, 22, 0),
                Turn(0, 0, 0xffff_ffff_ffff_fe00, 512, 22, 0),
                Turn(0, 1, 0xffff_ffff_ffff_fe00, 512, 28, 0x11),
                Turn(0, 4, 0, 512, 22, 0),
                Turn(2, 0, 0, 512, 22, 0),
                Turn(2, 1, 0, 512, 22, 0x11),
                Turn(2, 3, 0, 0, 22, 0),
                Turn(0, 1, 0, 0, 22, 0x11),
                Turn(0, 1, 0, 513, 22, 0x11),
                Turn(0, 1, 1, 512, 22, 0x11),
                Turn(0, 0, 0xc0000, 512, 22, 0),
                Turn(0, 1, 0xbfe00, 1024, 28, 0x11),
                Turn(0, 0, 0, 1024, 0, 0),
            ],
            tail: DISCONNECT,
            zeros: 0,
            status: Status::Done,
            line: "client 0 done 13\n",
            left: false,
        },
    ),
    (
        "bytes after a disconnect",
        Session {
            turns: &[Turn(0, 0, 0, 512, 0, 0)],
            tail: DISCONNECT,
            zeros: 100,
            status: Status::Done,
            line: "client 0 done 1\n",
            left: true,
        },
    ),
    (
        "no byte",
        Session {
            turns: &[],
            tail: b"",
            zeros: 0,
            status: Status::Done,
            line: "client 0 done 0\n",
            left: false,
        },
    ),
    (
        "a byte short of a head",
        Session {
            turns: &[],
            tail: b"\x25\x60\x95\x13",
            zeros: 23,
            status: Status::ClientCut(0),
            line: "client 0 cut 0\n",
            left: false,
        },
    ),
    (
        "a byte short of a payload",
        Session {
            turns: &[Turn(0, 0, 0, 512, 0, 0)],
            tail: WRITE,
            zeros: 511,
            status: Status::ClientCut(0),
            line: "client 0 cut 1\n",
            left: false,
        },
    ),
    (
        "a part of the longest payload",
        Session {
            turns: &[],
            tail: LONGEST,
            zeros: 1000,
            status: Status::ClientCut(0),
            line: "client 0 cut 0\n",
            left: false,
        },
    ),
    (
        "another magic",
        Session {
            turns: &[Turn(0, 3, 0, 0, 0, 0)],
            tail: OTHER,
            zeros: 0,
            status: Status::ClientMagic(0, *b"\x25\x60\x95\x14"),
            line: "client 0 magic 1\n",
            left: false,
        },
    ),
];

// However the source cuts its bytes.
#[test]
fn each_request_has_its_reply_and_each_end_its_status(rt: HostRuntime) -> Result<(), Fail> {
    let alloc = rt.alloc();
    let image = container(&rt, false)?;
    let whole = shown(&rt, CAT_OUTER, &image)?;
    for (case, session) in SESSIONS {
        for cut in [1, 27, 28, 29, 4096] {
            let mut plain = whole.clone()?;
            let want = replies_to(alloc, &mut plain, session.turns)?;
            let mut sent = sent_by(alloc, session.turns)?;
            sent.extend_from_slice(session.tail)?;
            for _ in 0..session.zeros {
                sent.push(0)?;
            }
            let mut clients = Vec::new(alloc);
            clients.push(client(alloc, sent, cut, NEVER, WHOLE)?)?;
            let mut ended = serve(&rt, SERVE, &image, NEVER, clients, &NoGate)?;
            assert_eq!(rt; ended.status, session.status, "{case}, cut at {cut}");
            assert_eq!(rt;
                ended.out.bytes(),
                session.line.as_bytes(),
                "{case}, cut at {cut}"
            );
            assert_eq!(rt; ended.clients.len(), 1, "{case}, cut at {cut}");
            for link in ended.clients.iter_mut() {
                assert!(rt; link.sink.taken == want, "{case}, cut at {cut}");
                let rest = link.source.read(&mut [0; 1]);
                assert_eq!(rt; rest != Ok(0), session.left, "{case}, cut at {cut}");
            }
            let bytes = ended.disk.bytes();
            if plain == whole {
                assert!(rt; bytes == image.as_slice(), "{case}, cut at {cut}");
            } else {
                assert!(rt;
                    shown(&rt, CAT_OUTER, bytes)? == plain,
                    "{case}, cut at {cut}"
                );
            }
        }
    }
    Ok(())
}
