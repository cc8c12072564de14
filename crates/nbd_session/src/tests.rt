//! What a session takes of its source, by hand from `docs/PROTOCOL.md`, "How a session ends".
ghost use Rattle.std.specs.Prelude.{◌≤◌};

mod served;

use crate::head::next_request;
use crate::payload::take_payload;
use nbd_wire::{End, Request};
use std::alloc::{AllocError, Global};
use vc_outside::MemSource;

// A write of 512 bytes, and its payload's first byte.
const WRITE: &[u8] =
    b"\x25\x60\x95\x13\x00\x01\x00\x01\x00\x00\x00\x00\x00\x00\x00\x07\x00\x00\x00\x00\x00\x00\x02\x00\x00\x00\x02\x00\xaa";

const ASKED: Request = Request {
    flags: 1,
    kind: 1,
    cookie: 7,
    offset: 512,
    length: 512,
};

fn source_of(
    alloc: Global,
    bytes: &[u8],
    cut: usize,
    fails: &[u64],
) -> Result<MemSource, AllocError>
    requires { 1 ≤ cut }
{
    Ok(MemSource::new(
        Vec::from_slice(alloc, bytes)?,
        cut,
        Vec::from_slice(alloc, fails)?,
    ))
}

// However the source cuts its bytes.
#[test]
fn a_head_or_how_the_bytes_end(rt: HostRuntime) -> Result<(), AllocError> {
    let cases = [
        ("no byte", &WRITE[..0], Err(End::Done)),
        ("one byte", &WRITE[..1], Err(End::Cut)),
        ("three bytes", &WRITE[..3], Err(End::Cut)),
        ("the magic", &WRITE[..4], Err(End::Cut)),
        ("27 bytes", &WRITE[..27], Err(End::Cut)),
        ("a head", &WRITE[..28], Ok(ASKED)),
        ("a byte more", WRITE, Ok(ASKED)),
        (
            "another magic",
            b"\x25\x60\x95\x14",
            Err(End::BadMagic(*b"\x25\x60\x95\x14")),
        ),
        ("three wrong bytes", b"abc", Err(End::Cut)),
    ];
    for (case, bytes, want) in cases {
        for cut in [1, 27, 28, 29] {
            let mut source = source_of(rt.alloc(), bytes, cut, &[])?;
            assert_eq!(rt; next_request(&mut source), want, "{case}, cut at {cut}");
        }
    }
    Ok(())
}

// A source that gives ten bytes in a call, and fails in one call.
#[test]
fn a_fault_inside_a_head_is_a_read_fault(rt: HostRuntime) -> Result<(), AllocError> {
    for (failing, want) in [
        (0, Err(End::ReadFault)),
        (1, Err(End::ReadFault)),
        (2, Err(End::ReadFault)),
        (3, Ok(ASKED)),
    ] {
        let mut source = source_of(rt.alloc(), WRITE, 10, &[failing])?;
        assert_eq!(rt; next_request(&mut source), want, "call {failing}");
    }
    Ok(())
}

#[test]
fn a_payload_or_how_the_bytes_end(rt: HostRuntime) -> Result<(), AllocError> {
    let bytes = [0xaa; 513];
    for (case, sent, want) in [
        ("no byte", 0, Some(End::Cut)),
        ("a byte short", 511, Some(End::Cut)),
        ("whole", 512, None),
        ("a byte more", 513, None),
    ] {
        let mut source = source_of(rt.alloc(), &bytes[..sent], 29, &[])?;
        match take_payload(rt.alloc(), &mut source, 512) {
            Ok(Some(kept)) => {
                assert!(rt; want.is_none(), "{case}");
                assert_eq!(rt; kept.as_slice(), &bytes[..512], "{case}");
            }
            Ok(None) => assert!(rt; false, "no memory"),
            Err(end) => assert_eq!(rt; Some(end), want, "{case}"),
        }
    }
    Ok(())
}
