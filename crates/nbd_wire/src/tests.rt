//! Heads, what they ask and replies. Values by hand from the tables of `docs/PROTOCOL.md`.
use super::*;

// Bytes 4 to 27 count up, so each field has a value of its own.
const COUNTING: [u8; HEAD] =
    *b"\x25\x60\x95\x13\x04\x05\x06\x07\x08\x09\x0a\x0b\x0c\x0d\x0e\x0f\x10\x11\x12\x13\x14\x15\x16\x17\x18\x19\x1a\x1b";

#[test]
fn a_head_has_its_fields(rt: HostRuntime) {
    let want = Request {
        flags: 0x0405,
        kind: 0x0607,
        cookie: 0x0809_0a0b_0c0d_0e0f,
        offset: 0x1011_1213_1415_1617,
        length: 0x1819_1a1b,
    };
    assert_eq!(rt; read_request(&COUNTING), Ok(want));
}

#[test]
fn any_other_magic_is_refused(rt: HostRuntime) {
    for at in 0..4usize {
        let mut head = COUNTING;
        head[at] ^= 1;
        let bad = BadMagic([head[0], head[1], head[2], head[3]]);
        assert_eq!(rt; read_request(&head), Err(bad), "byte {at}");
    }
}

#[test]
fn a_reply_has_its_fields(rt: HostRuntime) {
    let mut out = [0xff; REPLY];
    write_reply(1, 2, &mut out);
    assert_eq!(rt;
        out,
        *b"\x67\x44\x66\x98\x00\x00\x00\x01\x00\x00\x00\x00\x00\x00\x00\x02"
    );
    write_reply(0x0102_0304, 0x0506_0708_090a_0b0c, &mut out);
    assert_eq!(rt;
        out,
        *b"\x67\x44\x66\x98\x01\x02\x03\x04\x05\x06\x07\x08\x09\x0a\x0b\x0c"
    );
}

fn read(first: u64, count: u64) -> Ask {
    Ask::Read { first, count }
}

fn write(first: u64, count: u64, fua: bool) -> Ask {
    Ask::Write { first, count, fua }
}

fn request(flags: u16, kind: u16, offset: u64, length: u32) -> Request {
    Request {
        flags,
        kind,
        cookie: 7,
        offset,
        length,
    }
}

// Flags, type, offset and length, and what they ask of sectors of 512 bytes.
#[test]
fn heads_ask_by_the_first_rule_that_applies(rt: HostRuntime) {
    let cases = [
        ("sector 0", request(0, 0, 0, 512), read(0, 1)),
        ("sector 1535", request(0, 0, 0xbfe00, 512), read(1535, 1)),
        ("a read with FUA", request(1, 0, 512, 1024), read(1, 2)),
        (
            "a write",
            request(0, 1, 0x7f800, 4096),
            write(1020, 8, false),
        ),
        (
            "a write with FUA",
            request(1, 1, 512, 512),
            write(1, 1, true),
        ),
        ("another flag", request(2, 0, 0, 512), Ask::Malformed),
        ("FUA and another", request(3, 1, 0, 512), Ask::Malformed),
        (
            "the highest flag",
            request(0x8000, 1, 0, 512),
            Ask::Malformed,
        ),
        ("a disconnect", request(0, 2, 0, 0), Ask::Disconnect),
        (
            "all else wrong",
            request(0xffff, 2, 511, 0xffff_ffff),
            Ask::Disconnect,
        ),
        ("a flush", request(0, 3, 0, 0), Ask::Flush),
        ("a flush of a range", request(1, 3, 511, 513), Ask::Flush),
        (
            "a flush with another flag",
            request(4, 3, 0, 0),
            Ask::Malformed,
        ),
        (
            "the type after the last",
            request(0, 4, 0, 512),
            Ask::Malformed,
        ),
        (
            "the greatest type",
            request(0, 0xffff, 0, 512),
            Ask::Malformed,
        ),
        ("no byte", request(0, 0, 0, 0), Ask::Malformed),
        (
            "a byte short of a sector",
            request(0, 0, 0, 511),
            Ask::Malformed,
        ),
        (
            "a byte more than one",
            request(0, 0, 0, 513),
            Ask::Malformed,
        ),
        (
            "a sector below 32 MiB",
            request(0, 0, 0, 33_553_920),
            read(0, 65_535),
        ),
        (
            "32 MiB",
            request(0, 1, 0, 33_554_432),
            write(0, 65_536, false),
        ),
        (
            "a sector above 32 MiB",
            request(0, 1, 0, 33_554_944),
            Ask::Malformed,
        ),
        (
            "the greatest length",
            request(0, 1, 0, 0xffff_ffff),
            Ask::Malformed,
        ),
        (
            "a byte before sector 1",
            request(0, 0, 511, 512),
            Ask::Malformed,
        ),
        (
            "a byte after its start",
            request(0, 0, 513, 512),
            Ask::Malformed,
        ),
        (
            "the last sector",
            request(0, 0, !511, 512),
            read((1 << 55) - 1, 1),
        ),
    ];
    for (case, request, want) in cases {
        assert_eq!(rt; ask_of(&request, 512), want, "{case}");
    }
}

#[test]
fn larger_sectors_ask_for_larger_ranges(rt: HostRuntime) {
    let cases = [
        (
            "512 of 4096 bytes",
            4096,
            request(0, 0, 0, 512),
            Ask::Malformed,
        ),
        (
            "3584 of 4096 bytes",
            4096,
            request(0, 0, 0, 3584),
            Ask::Malformed,
        ),
        ("sector 1", 4096, request(0, 0, 4096, 4096), read(1, 1)),
        (
            "inside sector 0",
            4096,
            request(0, 0, 3584, 4096),
            Ask::Malformed,
        ),
        ("32 MiB", 4096, request(0, 0, 0, 33_554_432), read(0, 8192)),
        ("1024 bytes", 1024, request(0, 0, 1024, 1024), read(1, 1)),
        ("2048 bytes", 2048, request(0, 0, 4096, 2048), read(2, 1)),
    ];
    for (case, sector, request, want) in cases {
        assert_eq!(rt; ask_of(&request, sector), want, "{case}");
    }
}
