//! `cat` over containers with a volume of known bytes.
ghost use Rattle.std.specs.Prelude.{◌≡◌, ◌≤◌};

use cascade_set::{Algorithm, Keyed, Keys};
use cipher_base::UnitCipher;
use kdf_hmac::{Prf, pbkdf2};
use std::alloc::AllocError;
use std::process::Abort;
use std::test::Fail;
use trial_lines::{
    Miss, MissingStore, SlowSink, column, miss_named, number, run, run_into, way_named,
};
use vc_header::{Fields, write_plain};
use vc_outside::SureStore;

// The small container has one sector. The long one is read in three parts, of 2048, 2048 and 44 sectors.
const SMALL: usize = 512;

const LONG: usize = 4_140 * 512;

static CAT_ALL: &str = "cat|c1.vc|0|4140|--password|correct horse|--pim|1";

// The volume's byte i: 00 to ff, twice, in sector 0. No two sectors beside each other are the same, nor two that are
// 2048 sectors apart.
fn plain_byte(i: usize) -> u8 {
    (i % 256) as u8 ^ (i / 512 % 251) as u8
}

// Whether the bytes are a prefix of a volume's.
fn is_prefix(bytes: &[u8]) -> bool {
    are_from(0, bytes)
}

// Whether the bytes are a volume's from a sector on.
fn are_from(sector: u64, bytes: &[u8]) -> bool {
    let start = (sector as usize).wrapping_mul(512);
    bytes
        .iter()
        .enumerate()
        .all(|(i, byte)| *byte == plain_byte(start.wrapping_add(i)))
}

// A container with a volume of so many bytes, password `correct horse`, PIM 1, a salt of zeros and the
// master keys 00 to 3f.
fn container<R: Abort + AllocGlobal>(rt: &R, volume: usize) -> Result<Vec<u8>, AllocError>
    requires { volume ≤ 3000000 }
{
    let mut material = [0u8; 192];
    for i in 0..64 {
        material[i] = i as u8;
    }
    let mut header = write_plain(&Fields {
        hidden_size: 0,
        volume_size: volume as u64,
        start: 131_072,
        encrypted: volume as u64,
        flags: 0,
        sector: 512,
        material,
    });
    let mut derived = [0u8; 192];
    pbkdf2(
        Prf::Sha512,
        b"correct horse",
        &[0u8; 64],
        16_000,
        &mut derived,
    );
    keyed(derived).header(&mut header);
    let mut bytes = vec![in rt.alloc(); 0u8; 262_144 + volume]?;
    bytes[64..512].copy_from_slice(&header);
    let sectors = &mut bytes[131_072..131_072 + volume];
    for (i, byte) in sectors.iter_mut().enumerate() {
        *byte = plain_byte(i);
    }
    assert!(rt; sectors.len() % 512 == 0);
    keyed(material).encipher_units(256, sectors);
    Ok(bytes)
}

fn keyed(material: [u8; 192]) -> Keyed {
    Keyed::new(&Keys {
        algorithm: Algorithm::Aes,
        material,
    })
}

#[test]
fn containers_are_those_of_another_program(rt: HostRuntime) -> Result<(), Fail> {
    // by Python's hashlib and zlib, and AES-XTS of its package cryptography
    let bytes = container(&rt, SMALL)?;
    assert_eq!(rt; bytes.len(), 262_656);
    let rows = [
        (64, 0x04f7_0906_0a14_c501_5320_ee31_6b0e_c27e),
        (496, 0x5056_1312_af25_9f51_1f31_8347_e172_ce1d),
        (131_072, 0x60cd_dc0a_b876_191f_16b1_39f3_72f0_5211),
        (131_568, 0xd409_ee6a_5af6_6c3a_4e06_d8ab_dc87_0903_u128),
    ];
    for (at, block) in rows {
        assert!(rt;
            bytes[at..at + 16].starts_with(&u128::to_be_bytes(block)),
            "at {at}"
        );
    }
    Ok(())
}

// Status, bytes written, command line. The last rows have sums and products that pass 2^64, and options and
// positions in other orders.
static SMALL_ROWS: &str = "\
0;512;cat|c1.vc|0|1|--password|correct horse|--pim|1
0;0;cat|c1.vc|0|0|--password|correct horse|--pim|1
0;0;cat|c1.vc|1|0|--password|correct horse|--pim|1
6;0;cat|c1.vc|1|1|--password|correct horse|--pim|1
6;0;cat|c1.vc|0|2|--password|correct horse|--pim|1
6;0;cat|c1.vc|2|0|--password|correct horse|--pim|1
6;0;cat|c1.vc|1|18446744073709551615|--password|correct horse|--pim|1
6;0;cat|c1.vc|18446744073709551615|1|--password|correct horse|--pim|1
6;0;cat|c1.vc|0|36028797018963969|--password|correct horse|--pim|1
3;0;cat|c1.vc|0|1|--password|wrong horse|--pim|1
3;0;cat|c1.vc|0|1|--password|correct horse|--pim|2
0;512;cat|--pim|1|--password|correct horse|c1.vc|0|1
0;512;cat|c1.vc|--kind=standard|0|--pim=1|1|--password=correct horse
0;512;cat|--kind|any|c1.vc|--password|correct horse|0|--pim|01|01";

#[test]
fn small_container_by_rows(rt: HostRuntime) -> Result<(), Fail> {
    let whole = container(&rt, SMALL)?;
    for row in SMALL_ROWS.split('\n') {
        let (status, disk, out) = run(&rt, column(row, 2), SureStore::new(whole.clone()?))?;
        assert_eq!(rt; u64::from(status.code()), number(row, 0), "{row}");
        assert_eq!(rt; out.bytes().len() as u64, number(row, 1), "{row}");
        assert!(rt; is_prefix(out.bytes()), "{row}");
        assert!(rt; disk.bytes() == whole.as_slice(), "{row}");
    }
    Ok(())
}

// Status, bytes written, faults counted, the read that is missed, and how. The reads 0 and 1 are those of the two
// headers, before any key is derived; then come 2048, 2048 and 44 sectors.
static MISSED_READS: &str = "\
7;0;1;0;fails
7;0;1;1;fails
7;0;1;2;fails
7;1048576;1;3;fails
7;2097152;1;4;fails
0;2119680;0;5;fails
7;2119680;1;0;recovers
7;2119680;1;1;recovers
7;2119680;1;3;recovers
7;2119680;1;4;recovers";

#[test]
fn a_missed_read_is_a_container_fault(rt: HostRuntime) -> Result<(), Fail> {
    let whole = container(&rt, LONG)?;
    for row in MISSED_READS.split('\n') {
        let disk = MissingStore::new(whole.clone()?, number(row, 3), miss_named(column(row, 4)));
        let (status, disk, out) = run(&rt, CAT_ALL, disk)?;
        assert_eq!(rt; u64::from(status.code()), number(row, 0), "{row}");
        assert_eq!(rt; out.bytes().len() as u64, number(row, 1), "{row}");
        assert_eq!(rt; disk.faults, number(row, 2), "{row}");
        assert!(rt; is_prefix(out.bytes()), "{row}");
    }
    Ok(())
}

// Bytes written, the first sector, and the command line: a part of 1 MiB that lacks a sector, a whole one, and a sector
// more; then two parts and a sector, also up to the volume's end; and a sector of each of two parts.
static SPANS: &str = "\
1048064;0;cat|c1.vc|0|2047|--password|correct horse|--pim|1
1048576;0;cat|c1.vc|0|2048|--password|correct horse|--pim|1
1049088;0;cat|c1.vc|0|2049|--password|correct horse|--pim|1
2097664;0;cat|c1.vc|0|4097|--password|correct horse|--pim|1
2097664;43;cat|c1.vc|43|4097|--password|correct horse|--pim|1
1024;2047;cat|c1.vc|2047|2|--password|correct horse|--pim|1";

#[test]
fn spans_of_one_part_and_more(rt: HostRuntime) -> Result<(), Fail> {
    let whole = container(&rt, LONG)?;
    for row in SPANS.split('\n') {
        let (status, _disk, out) = run(&rt, column(row, 2), SureStore::new(whole.clone()?))?;
        assert_eq!(rt; status.code(), 0, "{row}");
        assert_eq!(rt; out.bytes().len() as u64, number(row, 0), "{row}");
        assert!(rt; are_from(number(row, 1), out.bytes()), "{row}");
    }
    Ok(())
}

// Status, bytes written, the missed read, and how the sink takes its pieces. A part whose next one can't be read is
// written first, so the sink's fault is the status; but being out of memory hides no fault of the container.
static MISSED_READS_AND_SLOW_SINKS: &str = "\
8;0;3;fails;0
8;1048576;4;fails;1
7;1048576;3;fails;1
7;0;3;memory;0
7;1048576;4;memory;1
7;1048576;3;pieces;7";

#[test]
fn a_part_is_written_though_the_next_is_not_read(rt: HostRuntime) -> Result<(), Fail> {
    let alloc = rt.alloc();
    let whole = container(&rt, LONG)?;
    for row in MISSED_READS_AND_SLOW_SINKS.split('\n') {
        let disk = MissingStore::new(whole.clone()?, number(row, 2), Miss::Fails);
        let sink = SlowSink::new(alloc, way_named(column(row, 3), number(row, 4)));
        let (status, disk, out) = run_into(&rt, CAT_ALL, disk, sink)?;
        assert_eq!(rt; u64::from(status.code()), number(row, 0), "{row}");
        assert_eq!(rt; out.taken.len() as u64, number(row, 1), "{row}");
        assert_eq!(rt; disk.faults, 1, "{row}");
        assert!(rt; is_prefix(out.taken.as_slice()), "{row}");
    }
    Ok(())
}

// Status, bytes written, faults counted, and how the sink takes its pieces.
static SLOW_SINKS: &str = "\
0;2119680;0;pieces;1
0;2119680;0;pieces;7
8;0;1;pieces;0
8;1;1;full;1
8;1048575;1;full;1048575
8;1048576;1;full;1048576
8;2119679;1;full;2119679
0;2119680;0;full;2119680
8;0;1;fails;0
8;1048576;1;fails;1
8;2097152;1;fails;2
0;2119680;0;fails;3
9;0;0;memory;0
9;2097152;0;memory;2
8;2119680;3;recovers;0
8;2097152;2;recovers, memory;2";

#[test]
fn a_sink_takes_what_it_can(rt: HostRuntime) -> Result<(), Fail> {
    let alloc = rt.alloc();
    let whole = container(&rt, LONG)?;
    for row in SLOW_SINKS.split('\n') {
        let disk = SureStore::new(whole.clone()?);
        let sink = SlowSink::new(alloc, way_named(column(row, 3), number(row, 4)));
        let (status, _disk, out) = run_into(&rt, CAT_ALL, disk, sink)?;
        assert_eq!(rt; u64::from(status.code()), number(row, 0), "{row}");
        assert_eq!(rt; out.taken.len() as u64, number(row, 1), "{row}");
        assert_eq!(rt; out.faults, number(row, 2), "{row}");
        assert!(rt; is_prefix(out.taken.as_slice()), "{row}");
    }
    Ok(())
}
