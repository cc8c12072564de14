//! Waves, by hand from `specs/Waves.antt`.
use crate::wave::joins;
use nbd_wire::Ask;

fn read(first: u64, count: u64) -> Ask {
    Ask::Read { first, count }
}

fn write(first: u64, count: u64) -> Ask {
    Ask::Write {
        first,
        count,
        fua: false,
    }
}

#[test]
fn a_wave_takes_reads_and_writes_apart_from_one_another(rt: HostRuntime) {
    let first = [write(0, 8), read(100, 1)];
    let flush = [Ask::Flush];
    let bad = [Ask::Malformed];
    let cases = [
        ("nothing yet", 8, &first[..0], read(4, 2), true),
        ("inside a write", 8, &first[..1], read(4, 2), false),
        ("the last sector", 8, &first[..1], read(7, 1), false),
        ("the next sector", 8, &first[..1], read(8, 1), true),
        ("around a read", 8, &first[..], write(99, 3), false),
        ("a read of what is read", 8, &first[..], read(100, 1), false),
        ("before a read", 8, &first[..], write(99, 1), true),
        ("one below the depth", 3, &first[..], write(99, 1), true),
        ("at the depth", 2, &first[..], write(99, 1), false),
        ("a flush", 8, &first[..], Ask::Flush, false),
        ("a malformed request", 8, &first[..], Ask::Malformed, false),
        ("after a flush", 8, &flush[..], read(0, 1), false),
        ("after a malformed request", 8, &bad[..], read(0, 1), false),
    ];
    for (case, depth, wave, next, want) in cases {
        assert_eq!(rt; joins(depth, wave, next), want, "{case}");
    }
}
