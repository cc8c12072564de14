//! `serve --protect`: the hidden volume is sectors 1024 to 1535 of the outer one. By hand from `docs/PROTOCOL.md`.
use std::test::Fail;
use trial_lines::{
    CAT_HIDDEN, CAT_OUTER, DISCONNECT, NEVER, Turn, WHOLE, client, container, replies_to, sent_by,
    serve, shown,
};
use vc_app::Status;
use vc_outside::NoGate;

static PROTECT: &str =
    "serve|c1.vc|--password|correct horse|--pim|1|--protect|hidden horse|--protect-pim|1";

// A write below the hidden volume, one that reaches into it, and one after that; what may still be read; and requests
// that pass the volume's end, whose errors are theirs although the volume takes no more writes.
const TURNS: &[Turn] = &[
    Turn(0, 1, 0x7f000, 0x1000, 0, 0x11),
    Turn(0, 1, 0x7f800, 0x1000, 1, 0x22),
    Turn(0, 1, 0, 512, 1, 0x33),
    Turn(0, 0, 0, 512, 0, 0),
    Turn(0, 0, 0x7f000, 0x2000, 0, 0),
    Turn(0, 0, 0xbfe00, 512, 0, 0),
    Turn(0, 0, 0xbfe00, 1024, 22, 0),
    Turn(0, 1, 0xbfe00, 1024, 28, 0x44),
    Turn(1, 1, 0xbfe00, 512, 1, 0x55),
    Turn(0, 3, 0, 0, 0, 0),
];

// However the source cuts its bytes.
#[test]
fn a_write_into_the_hidden_volume_freezes_the_outer_one(rt: HostRuntime) -> Result<(), Fail> {
    let alloc = rt.alloc();
    let image = container(&rt, true)?;
    let hidden = shown(&rt, CAT_HIDDEN, &image)?;
    assert_eq!(rt; hidden.len(), 512 * 512);
    for cut in [1, 27, 28, 29, 4096] {
        let mut plain = shown(&rt, CAT_OUTER, &image)?;
        let want = replies_to(alloc, &mut plain, TURNS)?;
        let mut sent = sent_by(alloc, TURNS)?;
        sent.extend_from_slice(DISCONNECT)?;
        let mut clients = Vec::new(alloc);
        clients.push(client(alloc, sent, cut, NEVER, WHOLE)?)?;
        let ended = serve(&rt, PROTECT, &image, NEVER, clients, &NoGate)?;
        assert_eq!(rt; ended.status, Status::Done, "cut at {cut}");
        assert_eq!(rt;
            ended.out.bytes(),
            b"client 0 done 10\n".as_slice(),
            "cut at {cut}"
        );
        assert_eq!(rt; ended.clients.len(), 1, "cut at {cut}");
        for link in ended.clients.iter() {
            assert!(rt; link.sink.taken == want, "cut at {cut}");
        }
        let bytes = ended.disk.bytes();
        assert!(rt; shown(&rt, CAT_OUTER, bytes)? == plain, "cut at {cut}");
        assert!(rt; shown(&rt, CAT_HIDDEN, bytes)? == hidden, "cut at {cut}");
    }
    Ok(())
}
