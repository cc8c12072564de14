//! Streams and replies of drills. Words, requests, lengths and counts are those of `scripts/drill_model.py`.
ghost use Rattle.std.specs.Prelude.{◌<◌};

use super::*;
use crate::requests::{request, word};
use nbd_wire::{HEAD, REPLY, Request, write_reply};
use std::alloc::{AllocError, Global};

// Client, request, word, and what they make: type, first sector and sectors.
#[test]
fn words_make_the_requests_of_the_model(rt: HostRuntime) {
    let rows: [(u64, u64, u32, u16, u64, u32); 9] = [
        (0, 0, 0xf75b_8229, 1, 1162, 1245),
        (0, 1, 0xfc64_c257, 1, 1173, 807),
        (0, 6, 0x1e9b_909c, 0, 551, 1245),
        (0, 11, 0xe195_2c45, 1, 273, 1194),
        (1, 0, 0x5a5c_8212, 1, 4228, 741),
        (1, 8, 0xa89e_b47c, 0, 4383, 1270),
        (2, 0, 0xc4db_c439, 1, 7438, 735),
        (2, 7, 0x7fe1_c1b4, 0, 7277, 783),
        (2, 11, 0xac1e_e52d, 1, 6475, 760),
    ];
    for (client, index, want, kind, first, sectors) in rows {
        assert_eq!(rt;
            word(7, client, index),
            want,
            "client {client}, request {index}"
        );
        let made = Request {
            flags: 0,
            kind,
            cookie: 12 * client + index,
            offset: 512 * first,
            length: 512 * sectors,
        };
        assert_eq!(rt;
            request(client, index, want),
            made,
            "client {client}, request {index}"
        );
    }
}

#[test]
fn the_first_request_is_a_write_whatever_its_word_is(rt: HostRuntime) {
    assert_eq!(rt; request(0, 0, 0).kind, 1);
    assert_eq!(rt; request(0, 1, 0).kind, 0);
}

// The number, the lengths of the three clients' bytes, and the counts.
#[test]
fn streams_have_the_lengths_and_counts_of_the_model(rt: HostRuntime) {
    let rows: [(u64, [usize; 3], [u64; 3]); 3] = [
        (7, [3_498_348, 4_056_428, 4_700_524], [5, 31, 23_934]),
        (0, [4_355_948, 1_932_652, 4_681_580], [5, 31, 21_424]),
        (
            4_294_967_295,
            [3_688_300, 2_813_292, 2_277_228],
            [10, 26, 17_144],
        ),
    ];
    for (n, lengths, counts) in rows {
        let Ok(made) = streams_of(rt.alloc(), n) else {
            assert!(rt; false, "drill {n}");
            return;
        };
        assert_eq!(rt;
            [made.first.len(), made.second.len(), made.third.len()],
            lengths,
            "drill {n}"
        );
        assert_eq!(rt;
            [made.reads, made.writes, made.sectors],
            counts,
            "drill {n}"
        );
    }
}

#[test]
fn a_stream_has_a_head_its_data_and_a_disconnect(rt: HostRuntime) {
    let Ok(made) = streams_of(rt.alloc(), 7) else {
        assert!(rt; false);
        return;
    };
    let bytes = made.first.as_slice();
    // offset 512 * 1162, length 512 * 1245
    let head =
        b"\x25\x60\x95\x13\x00\x00\x00\x01\x00\x00\x00\x00\x00\x00\x00\x00\x00\x00\x00\x00\x00\x09\x14\x00\x00\x09\xba\x00";
    assert!(rt; bytes.starts_with(head));
    let data = bytes.get(HEAD..HEAD + 512 * 1245).unwrap_or_default();
    assert_eq!(rt;
        (data.first(), data.get(255), data.last()),
        (Some(&0xf7), Some(&0xf6), Some(&0xf6))
    );
    let last =
        b"\x25\x60\x95\x13\x00\x00\x00\x02\x00\x00\x00\x00\x00\x00\x00\x00\x00\x00\x00\x00\x00\x00\x00\x00\x00\x00\x00\x00";
    assert!(rt; bytes.ends_with(last));
}

// The replies to a client whose requests were all done, and data of zeros.
fn replies_to(alloc: Global, client: u64) -> Result<Vec<u8>, AllocError>
    requires { client < 3 }
{
    let mut replies = Vec::new(alloc);
    for index in 0..12 {
        let asked = request(client, index, word(7, client, index));
        let mut reply = [0u8; REPLY];
        write_reply(0, asked.cookie, &mut reply);
        replies.extend_from_slice(&reply)?;
        if asked.kind == 0 {
            for _ in 0..asked.length / 512 {
                replies.extend_from_slice(&[0u8; 512])?;
            }
        }
    }
    Ok(replies)
}

#[test]
fn replies_are_done_only_if_each_of_them_is(rt: HostRuntime) -> Result<(), AllocError> {
    for client in 0..3 {
        let mut replies = replies_to(rt.alloc(), client)?;
        assert!(rt; are_done(7, client, replies.as_slice()), "client {client}");
        assert!(rt;
            !are_done(7, (client + 1) % 3, replies.as_slice()),
            "client {client}, by another's requests"
        );
        assert!(rt;
            !are_done(8, client, replies.as_slice()),
            "client {client}, by another drill"
        );
        let len = replies.len().saturating_sub(1);
        let short = replies.as_slice().get(..len).unwrap_or_default();
        assert!(rt;
            !are_done(7, client, short),
            "client {client}, a byte short"
        );
        replies.push(0)?;
        assert!(rt;
            !are_done(7, client, replies.as_slice()),
            "client {client}, a byte more"
        );
    }
    Ok(())
}

// Bytes of the first reply: of its magic, error number and cookie.
#[test]
fn a_reply_with_another_byte_is_not_done(rt: HostRuntime) -> Result<(), AllocError> {
    for at in [0, 3, 4, 7, 8, 15] {
        let mut replies = replies_to(rt.alloc(), 1)?;
        if let Some(byte) = replies.get_mut(at) {
            *byte ^= 5;
        }
        assert!(rt; !are_done(7, 1, replies.as_slice()), "byte {at}");
    }
    Ok(())
}
