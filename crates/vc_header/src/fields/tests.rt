//! Bodies as they are written elsewhere, with one defect at a time.
use self::Change::{
    Area, FieldsChecksum, Flags, HiddenSize, KeysChecksum, Magic, Nothing, PastKeys, Place,
    Program, Reserved, Sector, Version,
};
use super::*;
use vc_layout::Slot::{BackupHidden, BackupStandard, Hidden, Standard};

// A container of 1 MiB: by hand, 1,048,576 - 2 * 131,072 = 786,432 bytes between its header groups.
const LEN: u64 = 1_048_576;

// What is in a body. The checksums are computed, and then the XOR masks are applied to them.
#[derive(Clone, Copy)]
struct Written {
    magic: u32,
    version: u16,
    program: u16,
    hidden_size: u64,
    volume_size: u64,
    start: u64,
    encrypted: u64,
    flags: u32,
    sector: u32,
    reserved: u8,
    past_keys: u8,
    keys_checksum_xor: u32,
    fields_checksum_xor: u32,
}

// A volume that fills the container.
const OUTER: Written = Written {
    magic: 0x5645_5241,
    version: 5,
    program: 0x010b,
    hidden_size: 0,
    volume_size: 786_432,
    start: 131_072,
    encrypted: 786_432,
    flags: 0,
    sector: 512,
    reserved: 0,
    past_keys: 0,
    keys_checksum_xor: 0,
    fields_checksum_xor: 0,
};

// A hidden volume of 512 sectors that ends where the backups begin.
const INNER: Written = Written {
    hidden_size: 262_144,
    volume_size: 262_144,
    start: 655_360,
    encrypted: 262_144,
    ..OUTER
};

// A change of one thing.
#[derive(Clone, Copy)]
enum Change {
    Nothing,
    Magic(u32),
    Version(u16),
    Program(u16),
    HiddenSize(u64),
    // Where the volume starts and its size, which the hidden size and the enciphered area follow.
    Place(u64, u64),
    // The size of the volume, and of the area that is enciphered.
    Area(u64, u64),
    Flags(u32),
    // The size of a sector, with a place.
    Sector(u32, u64, u64),
    Reserved(u8),
    PastKeys(u8),
    KeysChecksum(u32),
    FieldsChecksum(u32),
}

fn changed(w: Written, change: Change) -> Written {
    match change {
        Nothing => w,
        Magic(magic) => Written { magic, ..w },
        Version(version) => Written { version, ..w },
        Program(program) => Written { program, ..w },
        HiddenSize(hidden_size) => Written { hidden_size, ..w },
        Place(start, size) => placed(w, start, size),
        Area(volume_size, encrypted) => Written {
            volume_size,
            encrypted,
            ..w
        },
        Flags(flags) => Written { flags, ..w },
        Sector(sector, start, size) => Written {
            sector,
            ..placed(w, start, size)
        },
        Reserved(reserved) => Written { reserved, ..w },
        PastKeys(past_keys) => Written { past_keys, ..w },
        KeysChecksum(keys_checksum_xor) => Written {
            keys_checksum_xor,
            ..w
        },
        FieldsChecksum(fields_checksum_xor) => Written {
            fields_checksum_xor,
            ..w
        },
    }
}

fn placed(w: Written, start: u64, size: u64) -> Written {
    Written {
        start,
        volume_size: size,
        encrypted: size,
        hidden_size: if w.hidden_size == 0 { 0 } else { size },
        ..w
    }
}

// Offsets are those of the body: the format's table less 64.
fn body_with(w: &Written) -> [u8; 448] {
    let mut body = [0u8; 448];
    body[12..28].fill(w.reserved);
    body[68..188].fill(w.reserved);
    for i in 0..192 {
        body[192 + i] = i as u8;
    }
    body[384..448].fill(w.past_keys);
    BigEndian::write_u32(&mut body[0..4], w.magic);
    BigEndian::write_u16(&mut body[4..6], w.version);
    BigEndian::write_u16(&mut body[6..8], w.program);
    let keys = crc32(&body[192..448]);
    BigEndian::write_u32(&mut body[8..12], keys ^ w.keys_checksum_xor);
    BigEndian::write_u64(&mut body[28..36], w.hidden_size);
    BigEndian::write_u64(&mut body[36..44], w.volume_size);
    BigEndian::write_u64(&mut body[44..52], w.start);
    BigEndian::write_u64(&mut body[52..60], w.encrypted);
    BigEndian::write_u32(&mut body[60..64], w.flags);
    BigEndian::write_u32(&mut body[64..68], w.sector);
    let fields = crc32(&body[0..188]);
    BigEndian::write_u32(&mut body[188..192], fields ^ w.fields_checksum_xor);
    body
}

// By hand, from the format's table of fields and rules. A row ends with whether the body is valid in the
// slots of the outer volume, and whether it is in those of the hidden one. Limits come below, at and above.
static ROWS: [(&str, Change, bool, bool); 77] = [
    ("up to the backups", Nothing, true, true),
    // 1
    ("magic VER@", Magic(0x5645_5240), false, false),
    ("magic VERB", Magic(0x5645_5242), false, false),
    ("magic TRUE", Magic(0x5452_5545), false, false),
    ("version 4", Version(4), false, false),
    ("version 6", Version(6), false, false),
    // 2
    ("keys checksum, lowest", KeysChecksum(1), false, false),
    ("keys checksum, top", KeysChecksum(1 << 31), false, false),
    ("fields checksum, lowest", FieldsChecksum(1), false, false),
    (
        "fields checksum, top",
        FieldsChecksum(1 << 31),
        false,
        false,
    ),
    // 3
    ("flags 1", Flags(1), false, false),
    ("flags 2", Flags(2), false, false),
    ("flags 3", Flags(3), false, false),
    ("flags 4", Flags(4), true, true),
    ("other flags", Flags(0xffff_fffc), true, true),
    // 4
    ("sector 0", Sector(0, 131_072, 4096), false, false),
    ("sector 1", Sector(1, 131_072, 4096), false, false),
    ("sector 256", Sector(256, 131_072, 4096), false, false),
    ("sector 511", Sector(511, 131_072, 4096), false, false),
    ("sector 512", Sector(512, 131_072, 4096), true, true),
    ("sector 513", Sector(513, 131_072, 4096), false, false),
    ("sector 1023", Sector(1023, 131_072, 4096), false, false),
    ("sector 1024", Sector(1024, 131_072, 4096), true, true),
    ("sector 1025", Sector(1025, 131_072, 4096), false, false),
    ("sector 2047", Sector(2047, 131_072, 4096), false, false),
    ("sector 2048", Sector(2048, 131_072, 4096), true, true),
    ("sector 2049", Sector(2049, 131_072, 4096), false, false),
    ("sector 3072", Sector(3072, 132_096, 3072), false, false),
    ("sector 4095", Sector(4095, 131_072, 4096), false, false),
    ("sector 4096", Sector(4096, 131_072, 4096), true, true),
    ("sector 4097", Sector(4097, 131_072, 4096), false, false),
    ("sector 8192", Sector(8192, 131_072, 8192), false, false),
    // 5
    ("start a byte early", Place(131_583, 512), false, false),
    ("start whole", Place(131_584, 512), true, true),
    ("start a byte late", Place(131_585, 512), false, false),
    ("size 0", Place(131_072, 0), false, false),
    ("size a byte short", Place(131_072, 511), false, false),
    ("size of one sector", Place(131_072, 512), true, true),
    ("size a byte over", Place(131_072, 513), false, false),
    (
        "1024, start half",
        Sector(1024, 131_584, 1024),
        false,
        false,
    ),
    ("1024, start whole", Sector(1024, 132_096, 1024), true, true),
    ("1024, size 512", Sector(1024, 131_072, 512), false, false),
    ("1024, size 1536", Sector(1024, 131_072, 1536), false, false),
    (
        "2048, start half",
        Sector(2048, 132_096, 2048),
        false,
        false,
    ),
    ("2048, start whole", Sector(2048, 133_120, 2048), true, true),
    ("2048, size 1024", Sector(2048, 131_072, 1024), false, false),
    ("2048, size 3072", Sector(2048, 131_072, 3072), false, false),
    (
        "4096, start half",
        Sector(4096, 133_120, 4096),
        false,
        false,
    ),
    ("4096, start whole", Sector(4096, 135_168, 4096), true, true),
    ("4096, size 0", Sector(4096, 131_072, 0), false, false),
    ("4096, size 2048", Sector(4096, 131_072, 2048), false, false),
    ("4096, size 4608", Sector(4096, 131_072, 4608), false, false),
    // 6
    ("start in the headers", Place(130_560, 512), false, false),
    ("start behind them", Place(131_072, 1024), true, true),
    ("area a byte short", Area(1024, 1023), false, false),
    ("area as the size", Area(1024, 1024), true, true),
    ("area a byte more", Area(1024, 1025), true, true),
    ("area of all bytes", Area(1024, u64::MAX), true, true),
    // 7
    ("end a sector early", Place(916_480, 512), true, true),
    ("end at the backups", Place(916_992, 512), true, true),
    ("end a sector late", Place(917_504, 512), false, false),
    ("a sector more", Place(131_072, 786_944), false, false),
    ("4096 to the end", Sector(4096, 913_408, 4096), true, true),
    (
        "4096 past the end",
        Sector(4096, 917_504, 4096),
        false,
        false,
    ),
    ("start wraps", Place(u64::MAX - 511, 512), false, false),
    ("size wraps", Place(131_072, u64::MAX - 511), false, false),
    (
        "both wrap",
        Place(u64::MAX - 511, u64::MAX - 511),
        false,
        false,
    ),
    ("hidden size, a byte less", HiddenSize(262_143), false, true),
    ("hidden size, the end", HiddenSize(262_144), false, true),
    (
        "hidden size, a byte more",
        HiddenSize(262_145),
        false,
        false,
    ),
    ("hidden size wraps", HiddenSize(u64::MAX), false, false),
    // 8
    ("hidden size 0", HiddenSize(0), true, false),
    ("hidden size 1", HiddenSize(1), false, true),
    // what no rule tests
    ("reserved bytes", Reserved(0xa5), true, true),
    ("program version 0", Program(0), true, true),
    ("program version", Program(0xffff), true, true),
    ("bytes past the keys", PastKeys(0xa5), true, true),
];

#[test]
fn each_rule_alone_refuses_a_body_in_each_slot(rt: HostRuntime) {
    for (name, change, outer, hidden) in ROWS {
        for (slot, whole, valid) in [
            (Standard, OUTER, outer),
            (BackupStandard, OUTER, outer),
            (Hidden, INNER, hidden),
            (BackupHidden, INNER, hidden),
        ] {
            let body = body_with(&changed(whole, change));
            let read = read_plain(&body, slot, LEN);
            assert_eq!(rt; read.is_some(), valid, "{name} in {slot:?}");
        }
    }
}

#[test]
fn a_body_written_elsewhere_is_read(rt: HostRuntime) {
    let w = INNER;
    let fields = read_plain(&body_with(&w), Hidden, LEN).expect(&rt, "valid");
    assert_eq!(rt; fields.hidden_size, w.hidden_size);
    assert_eq!(rt; fields.volume_size, w.volume_size);
    assert_eq!(rt; fields.start, w.start);
    assert_eq!(rt; fields.encrypted, w.encrypted);
    assert_eq!(rt; fields.flags, w.flags);
    assert_eq!(rt; fields.sector, w.sector);
    // and written again to the byte
    assert_eq!(rt; write_plain(&fields), body_with(&w));
}
