//! Handshakes, by hand from the NBD protocol: "Newstyle negotiation", "Option types" and "Option reply types".
use crate::{HandEnd, Refusal, handshake};
use std::alloc::{AllocError, Global};
use vc_outside::{Client, MemSink, MemSource, Source, SureSink};

const GREETING: &[u8] = b"\x4e\x42\x44\x4d\x41\x47\x49\x43\x49\x48\x41\x56\x45\x4f\x50\x54\x00\x03";

const OPTION: &[u8] = b"\x49\x48\x41\x56\x45\x4f\x50\x54";

// The kinds of replies.
const ACK: u32 = 1;

const SERVER: u32 = 2;

const INFO: u32 = 3;

const UNSUPPORTED: u32 = 0x8000_0001;

const INVALID: u32 = 0x8000_0003;

const UNKNOWN: u32 = 0x8000_0006;

fn push_option(to: &mut Vec<u8>, number: u32, length: u32, data: &[u8]) -> Result<(), AllocError> {
    to.extend_from_slice(OPTION)?;
    to.extend_from_slice(&number.to_be_bytes())?;
    to.extend_from_slice(&length.to_be_bytes())?;
    to.extend_from_slice(data)
}

// A reply. Of those here only a server's name and the details of the export have data; it has 0xc0000 bytes.
fn push_reply(to: &mut Vec<u8>, number: u32, kind: u32) -> Result<(), AllocError> {
    to.extend_from_slice(b"\x00\x03\xe8\x89\x04\x55\x65\xa9")?;
    to.extend_from_slice(&number.to_be_bytes())?;
    to.extend_from_slice(&kind.to_be_bytes())?;
    if kind == SERVER {
        return to.extend_from_slice(b"\x00\x00\x00\x04\x00\x00\x00\x00");
    }
    if kind == INFO {
        return to.extend_from_slice(
            b"\x00\x00\x00\x0c\x00\x00\x00\x00\x00\x00\x00\x0c\x00\x00\x00\x0d",
        );
    }
    to.extend_from_slice(b"\x00\x00\x00\x00")
}

// How the handshake with these bytes ends, and what is left of them, if it wrote what was wanted.
fn ends(
    alloc: Global,
    bytes: &[u8],
    cut: usize,
    wrote: &[u8],
) -> Result<Option<(HandEnd, usize)>, AllocError> {
    let source = MemSource::new(Vec::from_slice(alloc, bytes)?, cut.max(1), Vec::new(alloc));
    let mut link = Client {
        source,
        sink: SureSink::new(alloc),
    };
    let end = handshake(&mut link, 0xc0000);
    if link.sink.bytes() != wrote {
        return Ok(None);
    }
    Ok(Some((end, left_of(&mut link.source))))
}

fn left_of(source: &mut MemSource) -> usize {
    let mut rest = [0u8; 64];
    let mut left = 0;
    for _ in 0..64 {
        if let Ok(n) = source.read(&mut rest) {
            left = n.saturating_add(left);
        }
    }
    left
}

// Each is the only option of a client that wants no zeros. The last three bytes are no option.
#[test]
fn an_option_has_the_replies_of_the_table(rt: HostRuntime) -> Result<(), AllocError> {
    let cases = [
        (
            "abort",
            2,
            0,
            b"".as_slice(),
            Some(ACK),
            false,
            HandEnd::Aborted,
        ),
        (
            "abort with data",
            2,
            1,
            b"x".as_slice(),
            Some(ACK),
            false,
            HandEnd::Aborted,
        ),
        (
            "abort, its data a byte short",
            2,
            4,
            b"xyz".as_slice(),
            None,
            false,
            HandEnd::Cut,
        ),
        (
            "list",
            3,
            0,
            b"".as_slice(),
            Some(SERVER),
            true,
            HandEnd::Cut,
        ),
        (
            "list with a byte",
            3,
            1,
            b"x".as_slice(),
            Some(INVALID),
            false,
            HandEnd::Cut,
        ),
        (
            "list with four zeros",
            3,
            4,
            b"\x00\x00\x00\x00".as_slice(),
            Some(INVALID),
            false,
            HandEnd::Cut,
        ),
        (
            "list, its data a byte short",
            3,
            2,
            b"x".as_slice(),
            None,
            false,
            HandEnd::Cut,
        ),
        (
            "option 0",
            0,
            0,
            b"".as_slice(),
            Some(UNSUPPORTED),
            false,
            HandEnd::Cut,
        ),
        (
            "peek at exports",
            4,
            0,
            b"".as_slice(),
            Some(UNSUPPORTED),
            false,
            HandEnd::Cut,
        ),
        (
            "TLS",
            5,
            0,
            b"".as_slice(),
            Some(UNSUPPORTED),
            false,
            HandEnd::Cut,
        ),
        (
            "structured replies",
            8,
            0,
            b"".as_slice(),
            Some(UNSUPPORTED),
            false,
            HandEnd::Cut,
        ),
        (
            "list metadata",
            9,
            0,
            b"".as_slice(),
            Some(UNSUPPORTED),
            false,
            HandEnd::Cut,
        ),
        (
            "set metadata",
            10,
            0,
            b"".as_slice(),
            Some(UNSUPPORTED),
            false,
            HandEnd::Cut,
        ),
        (
            "extended headers",
            11,
            0,
            b"".as_slice(),
            Some(UNSUPPORTED),
            false,
            HandEnd::Cut,
        ),
        (
            "option 12",
            12,
            0,
            b"".as_slice(),
            Some(UNSUPPORTED),
            false,
            HandEnd::Cut,
        ),
        (
            "option 0x0600_0000",
            0x0600_0000,
            0,
            b"".as_slice(),
            Some(UNSUPPORTED),
            false,
            HandEnd::Cut,
        ),
        (
            "option 0x0100_0001",
            0x0100_0001,
            0,
            b"".as_slice(),
            Some(UNSUPPORTED),
            false,
            HandEnd::Cut,
        ),
        (
            "option 0xffff_ffff",
            0xffff_ffff,
            0,
            b"".as_slice(),
            Some(UNSUPPORTED),
            false,
            HandEnd::Cut,
        ),
        (
            "an unknown option with data",
            8,
            3,
            b"xyz".as_slice(),
            Some(UNSUPPORTED),
            false,
            HandEnd::Cut,
        ),
        (
            "an unknown option, its data a byte short",
            8,
            3,
            b"xy".as_slice(),
            None,
            false,
            HandEnd::Cut,
        ),
        (
            "an unknown option of the greatest length",
            8,
            0xffff_ffff,
            b"xyz".as_slice(),
            None,
            false,
            HandEnd::Cut,
        ),
    ];
    for (case, number, length, data, first, acked, end) in cases {
        let mut bytes = Vec::from_slice(rt.alloc(), b"\x00\x00\x00\x03")?;
        push_option(&mut bytes, number, length, data)?;
        let mut wrote = Vec::from_slice(rt.alloc(), GREETING)?;
        if let Some(kind) = first {
            push_reply(&mut wrote, number, kind)?;
        }
        if acked {
            push_reply(&mut wrote, number, ACK)?;
        }
        assert_eq!(rt;
            ends(rt.alloc(), &bytes, 5, &wrote)?,
            Some((end, 0)),
            "{case}"
        );
    }
    Ok(())
}

// The data of options 6 and 7, and whether it asks for the export: then option 7 ends the handshake.
#[test]
fn info_and_go_ask_for_the_export(rt: HostRuntime) -> Result<(), AllocError> {
    let cases = [
        ("no data", 0, b"".as_slice(), Some(INVALID), false, false),
        (
            "one byte",
            1,
            b"\x00".as_slice(),
            Some(INVALID),
            false,
            false,
        ),
        (
            "three bytes",
            3,
            b"\x00\x00\x00".as_slice(),
            Some(INVALID),
            false,
            false,
        ),
        (
            "a name's length alone",
            4,
            b"\x00\x00\x00\x00".as_slice(),
            Some(INVALID),
            false,
            false,
        ),
        (
            "a byte of the count",
            5,
            b"\x00\x00\x00\x00\x00".as_slice(),
            Some(INVALID),
            false,
            false,
        ),
        (
            "no name, no request",
            6,
            b"\x00\x00\x00\x00\x00\x00".as_slice(),
            Some(INFO),
            true,
            true,
        ),
        (
            "a byte more",
            7,
            b"\x00\x00\x00\x00\x00\x00\x00".as_slice(),
            Some(INVALID),
            false,
            false,
        ),
        (
            "a request too many",
            8,
            b"\x00\x00\x00\x00\x00\x00\x00\x00".as_slice(),
            Some(INVALID),
            false,
            false,
        ),
        (
            "one request",
            8,
            b"\x00\x00\x00\x00\x00\x01\x00\x00".as_slice(),
            Some(INFO),
            true,
            true,
        ),
        (
            "half a request",
            7,
            b"\x00\x00\x00\x00\x00\x01\x00".as_slice(),
            Some(INVALID),
            false,
            false,
        ),
        (
            "a byte after the request",
            9,
            b"\x00\x00\x00\x00\x00\x01\x00\x00\x00".as_slice(),
            Some(INVALID),
            false,
            false,
        ),
        (
            "two requests",
            10,
            b"\x00\x00\x00\x00\x00\x02\x00\x03\x00\x01".as_slice(),
            Some(INFO),
            true,
            true,
        ),
        (
            "one request of two",
            8,
            b"\x00\x00\x00\x00\x00\x02\x00\x03".as_slice(),
            Some(INVALID),
            false,
            false,
        ),
        (
            "256 requests of none",
            6,
            b"\x00\x00\x00\x00\x01\x00".as_slice(),
            Some(INVALID),
            false,
            false,
        ),
        (
            "a name",
            7,
            b"\x00\x00\x00\x01x\x00\x00".as_slice(),
            Some(UNKNOWN),
            false,
            false,
        ),
        (
            "a name and a request",
            9,
            b"\x00\x00\x00\x01x\x00\x01\x00\x03".as_slice(),
            Some(UNKNOWN),
            false,
            false,
        ),
        (
            "a name, a byte of the count",
            6,
            b"\x00\x00\x00\x01x\x00".as_slice(),
            Some(INVALID),
            false,
            false,
        ),
        (
            "a name, a byte more",
            8,
            b"\x00\x00\x00\x01x\x00\x00\x00".as_slice(),
            Some(INVALID),
            false,
            false,
        ),
        (
            "a longer name than the data",
            6,
            b"\x00\x00\x00\x01\x00\x00".as_slice(),
            Some(INVALID),
            false,
            false,
        ),
        (
            "the longest name",
            6,
            b"\xff\xff\xff\xff\x00\x00".as_slice(),
            Some(INVALID),
            false,
            false,
        ),
        (
            "five of six bytes",
            6,
            b"\x00\x00\x00\x00\x00".as_slice(),
            None,
            false,
            false,
        ),
        (
            "a name cut",
            9,
            b"\x00\x00\x00\x03xy".as_slice(),
            None,
            false,
            false,
        ),
        (
            "the greatest length",
            0xffff_ffff,
            b"\x00\x00\x00\x00\x00\x00".as_slice(),
            None,
            false,
            false,
        ),
    ];
    for (case, length, data, first, acked, whole) in cases {
        for (number, end) in [(6, HandEnd::Cut), (7, HandEnd::Go)] {
            let mut bytes = Vec::from_slice(rt.alloc(), b"\x00\x00\x00\x03")?;
            push_option(&mut bytes, number, length, data)?;
            let mut wrote = Vec::from_slice(rt.alloc(), GREETING)?;
            if let Some(kind) = first {
                push_reply(&mut wrote, number, kind)?;
            }
            if acked {
                push_reply(&mut wrote, number, ACK)?;
            }
            let want = if whole { end } else { HandEnd::Cut };
            assert_eq!(rt;
                ends(rt.alloc(), &bytes, 5, &wrote)?,
                Some((want, 0)),
                "{case}"
            );
        }
    }
    Ok(())
}

// What is written after the greeting, also with zeros after it, and how many bytes are left, however they come.
#[test]
fn a_handshake_ends_as_its_bytes_say(rt: HostRuntime) -> Result<(), AllocError> {
    let cases = [
        (
            "no byte",
            b"".as_slice(),
            b"".as_slice(),
            false,
            HandEnd::Cut,
            0,
        ),
        (
            "three bytes of the flags",
            b"\x00\x00\x00".as_slice(),
            b"".as_slice(),
            false,
            HandEnd::Cut,
            0,
        ),
        (
            "the flags alone",
            b"\x00\x00\x00\x03".as_slice(),
            b"".as_slice(),
            false,
            HandEnd::Cut,
            0,
        ),
        (
            "flag 2",
            b"\x00\x00\x00\x04".as_slice(),
            b"".as_slice(),
            false,
            HandEnd::Refused(Refusal::Flags(4)),
            0,
        ),
        (
            "all of the lowest three",
            b"\x00\x00\x00\x07x".as_slice(),
            b"".as_slice(),
            false,
            HandEnd::Refused(Refusal::Flags(7)),
            1,
        ),
        (
            "the highest flag",
            b"\x80\x00\x00\x00".as_slice(),
            b"".as_slice(),
            false,
            HandEnd::Refused(Refusal::Flags(0x8000_0000)),
            0,
        ),
        (
            "option 1, no flag",
            b"\x00\x00\x00\x00IHAVEOPT\x00\x00\x00\x01\x00\x00\x00\x00xy".as_slice(),
            b"\x00\x00\x00\x00\x00\x0c\x00\x00\x00\x0d".as_slice(),
            true,
            HandEnd::Go,
            2,
        ),
        (
            "option 1, fixed newstyle",
            b"\x00\x00\x00\x01IHAVEOPT\x00\x00\x00\x01\x00\x00\x00\x00".as_slice(),
            b"\x00\x00\x00\x00\x00\x0c\x00\x00\x00\x0d".as_slice(),
            true,
            HandEnd::Go,
            0,
        ),
        (
            "option 1, no zeros",
            b"\x00\x00\x00\x02IHAVEOPT\x00\x00\x00\x01\x00\x00\x00\x00".as_slice(),
            b"\x00\x00\x00\x00\x00\x0c\x00\x00\x00\x0d".as_slice(),
            false,
            HandEnd::Go,
            0,
        ),
        (
            "option 1, both flags",
            b"\x00\x00\x00\x03IHAVEOPT\x00\x00\x00\x01\x00\x00\x00\x00xyz".as_slice(),
            b"\x00\x00\x00\x00\x00\x0c\x00\x00\x00\x0d".as_slice(),
            false,
            HandEnd::Go,
            3,
        ),
        (
            "option 1 with a name",
            b"\x00\x00\x00\x03IHAVEOPT\x00\x00\x00\x01\x00\x00\x00\x05other".as_slice(),
            b"".as_slice(),
            false,
            HandEnd::Refused(Refusal::Name(5)),
            5,
        ),
        (
            "option 1 with a name that isn't there",
            b"\x00\x00\x00\x03IHAVEOPT\x00\x00\x00\x01\x00\x00\x00\x05".as_slice(),
            b"".as_slice(),
            false,
            HandEnd::Refused(Refusal::Name(5)),
            0,
        ),
        (
            "another first byte",
            b"\x00\x00\x00\x03JHAVEOPT\x00\x00".as_slice(),
            b"".as_slice(),
            false,
            HandEnd::Refused(Refusal::Magic(*b"JHAVEOPT")),
            2,
        ),
        (
            "another last byte",
            b"\x00\x00\x00\x03IHAVEOPU".as_slice(),
            b"".as_slice(),
            false,
            HandEnd::Refused(Refusal::Magic(*b"IHAVEOPU")),
            0,
        ),
        (
            "seven bytes of another magic",
            b"\x00\x00\x00\x03JHAVEOP".as_slice(),
            b"".as_slice(),
            false,
            HandEnd::Cut,
            0,
        ),
        (
            "a head, a byte short",
            b"\x00\x00\x00\x03IHAVEOPT\x00\x00\x00\x02\x00\x00\x00".as_slice(),
            b"".as_slice(),
            false,
            HandEnd::Cut,
            0,
        ),
        (
            "bytes after an abort",
            b"\x00\x00\x00\x03IHAVEOPT\x00\x00\x00\x02\x00\x00\x00\x00IHAVEOPT\x00\x00\x00\x07\x00\x00\x00\x06\x00\x00\x00\x00\x00\x00".as_slice(),
            b"\x00\x03\xe8\x89\x04\x55\x65\xa9\x00\x00\x00\x02\x00\x00\x00\x01\x00\x00\x00\x00".as_slice(),
            false,
            HandEnd::Aborted,
            22,
        ),
        (
            "go, and a request",
            b"\x00\x00\x00\x03IHAVEOPT\x00\x00\x00\x07\x00\x00\x00\x06\x00\x00\x00\x00\x00\x00\x25\x60\x95\x13\x00\x00\x00\x00\x00\x00\x00\x00\x00\x00\x00\x00\x00\x00\x00\x00\x00\x00\x00\x00\x00\x00\x02\x00".as_slice(),
            b"\x00\x03\xe8\x89\x04\x55\x65\xa9\x00\x00\x00\x07\x00\x00\x00\x03\x00\x00\x00\x0c\x00\x00\x00\x00\x00\x00\x00\x0c\x00\x00\x00\x0d\x00\x03\xe8\x89\x04\x55\x65\xa9\x00\x00\x00\x07\x00\x00\x00\x01\x00\x00\x00\x00".as_slice(),
            false,
            HandEnd::Go,
            28,
        ),
        (
            "structured replies, list, abort",
            b"\x00\x00\x00\x03IHAVEOPT\x00\x00\x00\x08\x00\x00\x00\x00IHAVEOPT\x00\x00\x00\x03\x00\x00\x00\x00IHAVEOPT\x00\x00\x00\x02\x00\x00\x00\x00".as_slice(),
            b"\x00\x03\xe8\x89\x04\x55\x65\xa9\x00\x00\x00\x08\x80\x00\x00\x01\x00\x00\x00\x00\x00\x03\xe8\x89\x04\x55\x65\xa9\x00\x00\x00\x03\x00\x00\x00\x02\x00\x00\x00\x04\x00\x00\x00\x00\x00\x03\xe8\x89\x04\x55\x65\xa9\x00\x00\x00\x03\x00\x00\x00\x01\x00\x00\x00\x00\x00\x03\xe8\x89\x04\x55\x65\xa9\x00\x00\x00\x02\x00\x00\x00\x01\x00\x00\x00\x00".as_slice(),
            false,
            HandEnd::Aborted,
            0,
        ),
        (
            "a wrong magic after an option",
            b"\x00\x00\x00\x03IHAVEOPT\x00\x00\x00\x08\x00\x00\x00\x00NBDMAGIC".as_slice(),
            b"\x00\x03\xe8\x89\x04\x55\x65\xa9\x00\x00\x00\x08\x80\x00\x00\x01\x00\x00\x00\x00".as_slice(),
            false,
            HandEnd::Refused(Refusal::Magic(*b"NBDMAGIC")),
            0,
        ),
    ];
    for (case, bytes, replies, zeros, end, left) in cases {
        for cut in [1, 3, 100] {
            let mut wrote = Vec::from_slice(rt.alloc(), GREETING)?;
            wrote.extend_from_slice(replies)?;
            if zeros {
                wrote.extend_from_slice(&[0; 124])?;
            }
            assert_eq!(rt;
                ends(rt.alloc(), bytes, cut, &wrote)?,
                Some((end, left)),
                "{case}, cut at {cut}"
            );
        }
    }
    Ok(())
}

#[test]
fn the_last_of_1024_options_is_answered(rt: HostRuntime) -> Result<(), AllocError> {
    for (last, kind, end) in [
        (8, UNSUPPORTED, HandEnd::Refused(Refusal::TooMany)),
        (2, ACK, HandEnd::Aborted),
    ] {
        let mut bytes = Vec::from_slice(rt.alloc(), b"\x00\x00\x00\x03")?;
        let mut wrote = Vec::from_slice(rt.alloc(), GREETING)?;
        for _ in 0..1023 {
            push_option(&mut bytes, 8, 0, b"")?;
            push_reply(&mut wrote, 8, UNSUPPORTED)?;
        }
        push_option(&mut bytes, last, 0, b"")?;
        push_reply(&mut wrote, last, kind)?;
        push_option(&mut bytes, 2, 0, b"")?;
        assert_eq!(rt;
            ends(rt.alloc(), &bytes, 4096, &wrote)?,
            Some((end, 16)),
            "last {last}"
        );
    }
    Ok(())
}

// The flags, options 3 and 2: they are read by five calls, of 4 bytes and then 8 each.
const CLIENT: &[u8] =
    b"\x00\x00\x00\x03IHAVEOPT\x00\x00\x00\x03\x00\x00\x00\x00IHAVEOPT\x00\x00\x00\x02\x00\x00\x00\x00";

// The greeting, the replies to option 3, the reply to option 2: they are written by three calls, of 18, 44 and 20 bytes.
const REPLIES: &[u8] =
    b"NBDMAGICIHAVEOPT\x00\x03\x00\x03\xe8\x89\x04\x55\x65\xa9\x00\x00\x00\x03\x00\x00\x00\x02\x00\x00\x00\x04\x00\x00\x00\x00\x00\x03\xe8\x89\x04\x55\x65\xa9\x00\x00\x00\x03\x00\x00\x00\x01\x00\x00\x00\x00\x00\x03\xe8\x89\x04\x55\x65\xa9\x00\x00\x00\x02\x00\x00\x00\x01\x00\x00\x00\x00";

// How that handshake ends if these calls fail, how many bytes it wrote and how many it left, if what it wrote is the
// start of the replies.
fn fails(
    alloc: Global,
    reads: &[u64],
    writes: &[u64],
) -> Result<Option<(HandEnd, usize, usize)>, AllocError> {
    let bytes = Vec::from_slice(alloc, CLIENT)?;
    let mut link = Client {
        source: MemSource::new(bytes, 4096, Vec::from_slice(alloc, reads)?),
        sink: MemSink::new(alloc, Vec::from_slice(alloc, writes)?),
    };
    let end = handshake(&mut link, 0xc0000);
    if !REPLIES.starts_with(link.sink.bytes()) {
        return Ok(None);
    }
    let wrote = link.sink.bytes().len();
    Ok(Some((end, wrote, left_of(&mut link.source))))
}

// No later call is made: of the replies nothing more is written, and of the options none is read.
#[test]
fn a_handshake_ends_at_the_call_that_fails(rt: HostRuntime) -> Result<(), AllocError> {
    let cases = [
        (
            "the flags",
            [0].as_slice(),
            [].as_slice(),
            HandEnd::ReadFault,
            18,
            36,
        ),
        (
            "the first magic",
            [1].as_slice(),
            [].as_slice(),
            HandEnd::ReadFault,
            18,
            32,
        ),
        (
            "the first number",
            [2].as_slice(),
            [].as_slice(),
            HandEnd::ReadFault,
            18,
            24,
        ),
        (
            "the second magic",
            [3].as_slice(),
            [].as_slice(),
            HandEnd::ReadFault,
            62,
            16,
        ),
        (
            "the second number",
            [4].as_slice(),
            [].as_slice(),
            HandEnd::ReadFault,
            62,
            8,
        ),
        (
            "a sixth read",
            [5].as_slice(),
            [].as_slice(),
            HandEnd::Aborted,
            82,
            0,
        ),
        (
            "the greeting",
            [].as_slice(),
            [0].as_slice(),
            HandEnd::WriteFault,
            0,
            36,
        ),
        (
            "the first reply",
            [].as_slice(),
            [1].as_slice(),
            HandEnd::WriteFault,
            18,
            16,
        ),
        (
            "the second reply",
            [].as_slice(),
            [2].as_slice(),
            HandEnd::WriteFault,
            62,
            0,
        ),
        (
            "a fourth write",
            [].as_slice(),
            [3].as_slice(),
            HandEnd::Aborted,
            82,
            0,
        ),
    ];
    for (case, reads, writes, end, wrote, left) in cases {
        assert_eq!(rt;
            fails(rt.alloc(), reads, writes)?,
            Some((end, wrote, left)),
            "{case}"
        );
    }
    Ok(())
}
