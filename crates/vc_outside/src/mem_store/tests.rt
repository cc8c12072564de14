//! That the rules say what was meant: images worked out by hand, after one script of calls.
use super::*;

// A call of a store.
#[derive(Clone, Copy)]
enum Ask {
    Read(u64),
    Write(u64, &'static [u8]),
    Length(u64),
    Sync,
}

// Makes the call and returns whether it succeeded. One past the end isn't made.
fn asks(store: &mut MemStore, ask: Ask) -> Option<bool> {
    match ask {
        Ask::Read(at) => {
            let mut out = [0; 2];
            if at > store.len() || store.len() - at < 2 {
                return None;
            }
            Some(store.read_at(at, &mut out).is_ok())
        }
        Ask::Write(at, bytes) => {
            if at > store.len() || store.len() - at < bytes.len() as u64 {
                return None;
            }
            Some(store.write_at(at, bytes).is_ok())
        }
        Ask::Length(len) => Some(store.set_len(len).is_ok()),
        Ask::Sync => Some(store.sync().is_ok()),
    }
}

const SCRIPT: [Ask; 8] = [
    Ask::Write(1, b"XY"),
    Ask::Sync,
    Ask::Write(4, b"PQRS"),
    Ask::Read(0),
    Ask::Length(6),
    Ask::Length(9),
    Ask::Write(3, b"Z"),
    Ask::Sync,
];

fn store(
    rt: &HostRuntime,
    fails: &[u64],
    stop: Option<u64>,
    calls: usize,
    room: usize,
) -> Result<MemStore, NoMemory> {
    let Ok(bytes) = Vec::from_slice(rt.alloc(), b"abcdefgh") else {
        return Err(NoMemory);
    };
    let Ok(fails) = Vec::from_slice(rt.alloc(), fails) else {
        return Err(NoMemory);
    };
    MemStore::new(rt.alloc(), bytes, fails, stop, calls, room)
}

// The script's calls fail as planned; what a read then gives, and what a crash then leaves by each pick.
// A `*` is a byte a5, and a `.` a byte 0.
#[test]
fn each_plan_leaves_its_images(rt: HostRuntime) {
    let rows: [(&[u64], Option<u64>, &[u8; 9], [&[u8; 9]; 3]); 19] = [
        (
            &[],
            None,
            b"aXYZPQ...",
            [b"aXYZPQ...", b"aXYZPQ...", b"aXYZPQ..."],
        ),
        // it stops at each call
        (
            &[],
            Some(0),
            b"abcdefgh|",
            [b"abcdefgh|", b"aXYdefgh|", b"a**defgh|"],
        ),
        (
            &[],
            Some(1),
            b"aXYdefgh|",
            [b"abcdefgh|", b"aXYdefgh|", b"a**defgh|"],
        ),
        (
            &[],
            Some(2),
            b"aXYdefgh|",
            [b"aXYdefgh|", b"aXYdPQRS|", b"aXYd****|"],
        ),
        (
            &[],
            Some(3),
            b"aXYdPQRS|",
            [b"aXYdefgh|", b"aXYdPQRS|", b"aXYd****|"],
        ),
        (
            &[],
            Some(4),
            b"aXYdPQRS|",
            [b"aXYdefgh|", b"aXYdPQRS|", b"aXYd****|"],
        ),
        (
            &[],
            Some(5),
            b"aXYdPQ|||",
            [b"aXYdefgh|", b"aXYdPQ|||", b"aXYd**|||"],
        ),
        (
            &[],
            Some(6),
            b"aXYdPQ...",
            [b"aXYdefgh|", b"aXYZPQ...", b"aXY***..."],
        ),
        (
            &[],
            Some(7),
            b"aXYZPQ...",
            [b"aXYdefgh|", b"aXYZPQ...", b"aXY***..."],
        ),
        // each call fails alone; a failed write stores half of its bytes
        (
            &[0],
            None,
            b"aXcZPQ...",
            [b"aXcZPQ...", b"aXcZPQ...", b"aXcZPQ..."],
        ),
        (
            &[1],
            None,
            b"aXYZPQ...",
            [b"aXYZPQ...", b"aXYZPQ...", b"aXYZPQ..."],
        ),
        (
            &[2],
            None,
            b"aXYZPQ...",
            [b"aXYZPQ...", b"aXYZPQ...", b"aXYZPQ..."],
        ),
        (
            &[3],
            None,
            b"aXYZPQ...",
            [b"aXYZPQ...", b"aXYZPQ...", b"aXYZPQ..."],
        ),
        (
            &[4],
            None,
            b"aXYZPQRS.",
            [b"aXYZPQRS.", b"aXYZPQRS.", b"aXYZPQRS."],
        ),
        (
            &[5],
            None,
            b"aXYZPQ|||",
            [b"aXYZPQ|||", b"aXYZPQ|||", b"aXYZPQ|||"],
        ),
        (
            &[6],
            None,
            b"aXYdPQ...",
            [b"aXYdPQ...", b"aXYdPQ...", b"aXYdPQ..."],
        ),
        (
            &[7],
            None,
            b"aXYZPQ...",
            [b"aXYdefgh|", b"aXYZPQ...", b"aXY***..."],
        ),
        // a failed write counts its whole range as written; a failed sync isn't recorded
        (
            &[2],
            Some(3),
            b"aXYdPQgh|",
            [b"aXYdefgh|", b"aXYdPQgh|", b"aXYd****|"],
        ),
        (
            &[1, 2],
            Some(3),
            b"aXYdPQgh|",
            [b"abcdefgh|", b"aXYdPQgh|", b"a**d****|"],
        ),
    ];
    for (fails, stop, shown, left) in rows {
        let Ok(mut store) = store(&rt, fails, stop, 4096, 16 << 20) else {
            return assert!(rt; false, "no memory");
        };
        let mut faults = 0u64;
        for (number, ask) in (0u64..).zip(SCRIPT) {
            let fails_now = fails.contains(&number) || stop.is_some_and(|stop| stop <= number);
            assert_eq!(rt; asks(&mut store, ask), Some(!fails_now), "call {number}");
            faults = faults.saturating_add(u64::from(fails_now));
        }
        assert_eq!(rt; store.faults(), faults);
        assert!(rt;
            is_drawn(store.bytes(), shown),
            "read after {fails:?} {stop:?}"
        );
        for pick in 0..3 {
            let image = store.after_crash(pick);
            let want = left[usize::from(pick)];
            assert!(rt;
                image.is_ok_and(|image| is_drawn(&image, want)),
                "{pick} after {fails:?} {stop:?}"
            );
        }
    }
}

// Whether the bytes are those that are drawn, up to a `|`.
fn is_drawn(bytes: &[u8], drawn: &[u8; 9]) -> bool {
    let len = drawn.iter().position(|byte| *byte == b'|').unwrap_or(9);
    bytes.len() == len
        && bytes.iter().zip(drawn).all(|(byte, mark)| match mark {
            b'*' => *byte == 0xa5,
            b'.' => *byte == 0,
            _ => byte == mark,
        })
}

// Room for three calls and for three bytes. A read needs none, and a failed call takes none.
#[test]
fn a_call_with_too_little_room_fails(rt: HostRuntime) {
    let Ok(mut store) = store(&rt, &[1], None, 3, 3) else {
        return assert!(rt; false, "no memory");
    };
    for (i, (ask, ok)) in [
        (Ask::Write(0, b"ABCD"), false),
        (Ask::Sync, false),
        (Ask::Write(0, b"AB"), true),
        (Ask::Length(6), false),
        (Ask::Write(2, b"CD"), false),
        (Ask::Length(7), true),
        (Ask::Length(9), true),
        (Ask::Read(0), true),
        (Ask::Write(0, b""), false),
        (Ask::Sync, false),
        (Ask::Length(10), false),
        (Ask::Read(0), true),
    ]
    .into_iter()
    .enumerate()
    {
        assert_eq!(rt; asks(&mut store, ask), Some(ok), "call {i}");
    }
    assert_eq!(rt; store.faults(), 7);
    assert!(rt; is_drawn(store.bytes(), b"ABcdefg.."));
}

// What a read puts into the caller's bytes, and a length for which there is no memory.
#[test]
fn a_read_gives_the_bytes(rt: HostRuntime) {
    let Ok(mut store) = store(&rt, &[], None, 4096, 16 << 20) else {
        return assert!(rt; false, "no memory");
    };
    let mut out = [0; 3];
    if store.len() == 8 {
        assert_eq!(rt; store.read_at(5, &mut out), Ok(()));
    }
    assert_eq!(rt; out, *b"fgh");
    assert_eq!(rt; store.set_len(1 << 62), Err(OutError::NoMemory));
    assert_eq!(rt; store.len(), 8);
    assert_eq!(rt; store.faults(), 0);
}
