//! The fields of a header, written into a body and read from one.
ghost use Rattle.std.specs.Prelude.{◌≡◌, ◌≤◌, ◌↔◌, ℕ, IsTrue, IsSome, IfSome, List, take, drop, length, ◌+◌, ◌^◌, ◌<◌, ◌++◌};
ghost use Rattle.vc_layout.specs.declared.slots.Slot.{Slot};
ghost use Rattle.vc_header.specs.Crc.{crc};
ghost use Rattle.vc_header.specs.Header.{body_of, field, fields_of, fields_part, keys_part, Meets, Valid};
ghost use Rattle.vc_header.specs.Laws.Tests.{is_valid};

use crate::checksum::crc32;
use crate::view::BODY;
use byteorder::{BigEndian, ByteOrder};
use vc_layout::{GROUP, Slot, is_sector_size};

/// The length of the master keys that a header keeps.
pub const MATERIAL: usize = 192;

/// What a header says. Sizes and places are in bytes.
#[derive(Clone, Copy)]
pub struct Fields {
    /// The size of the hidden volume in a hidden volume's header, else 0.
    pub hidden_size: u64,
    /// The size of the volume.
    pub volume_size: u64,
    /// Where the volume begins in the container.
    pub start: u64,
    /// The size of the area that is enciphered.
    pub encrypted: u64,
    /// Bit 0: system encryption; bit 1: encrypted in place.
    pub flags: u32,
    /// The size of a sector.
    pub sector: u32,
    /// The master keys.
    pub material: [u8; MATERIAL],
}

/// The body that is written for fields, before it is enciphered.
pub fn write_plain(f: &Fields) -> [u8; BODY]
    ensures body { result ≡ body_of f.now }
    // What was written is read again: it has the same fields, and it is valid where they meet the rules.
    ensures again { fields_of result ≡ f.now }
    ensures valid { (slot : Slot) (len : ℕ) → Meets f.now slot len → Valid result slot len }
{
    ranges_are_known(f);
    let mut body = [0u8; BODY];
    put(&mut body, at::KEYS, &f.material);
    let fields = fields_bytes(f, crc32(&body[at::KEYS..]));
    put(&mut body, 0, &fields);
    let checksum = crc32(&fields);
    put(&mut body, at::FIELDS_CHECKSUM, &checksum.to_be_bytes());
    body
}

/// The fields of a deciphered body, where it is valid for the slot in a container of `len` bytes.
pub fn read_plain(plain: &[u8; BODY], slot: Slot, len: u64) -> Option<Fields>
    requires { 262656 ≤ len }
    ensures valid { IsSome result ↔ Valid plain.now slot len }
    ensures fields { IfSome result (λ f. f ≡ fields_of plain.now) }
{
    if !is_marked(plain) || !has_checksums(plain) {
        return None;
    }
    let fields = all_fields(plain);
    if meets_rules(&fields, slot, len) {
        Some(fields)
    } else {
        None
    }
}

/// Whether a body is valid is decided by a test.
pub fn validity_is_decided()
    ensures { (body : List ℕ) (slot : Slot) (len : ℕ) →
        (IsTrue (is_valid body slot len) → Valid body slot len)
        × (Valid body slot len → IsTrue (is_valid body slot len)) }
{}

// Where the parts of a body stand. In a header they stand 64 bytes later.
mod at {
    pub const MAGIC: usize = 0;

    pub const VERSION: usize = 4;

    pub const PROGRAM: usize = 6;

    pub const KEYS_CHECKSUM: usize = 8;

    pub const HIDDEN_SIZE: usize = 28;

    pub const VOLUME_SIZE: usize = 36;

    pub const START: usize = 44;

    pub const ENCRYPTED: usize = 52;

    pub const FLAGS: usize = 60;

    pub const SECTOR: usize = 64;

    pub const FIELDS_CHECKSUM: usize = 188;

    pub const KEYS: usize = 192;
}

// The first four bytes of a body, `VERA`.
const MAGIC: u32 = 0x5645_5241;

// The header version that is written and read.
const VERSION: u16 = 5;

// The minimum program version that is written; none is tested.
const PROGRAM: u16 = 0x010b;

// The first 188 bytes of a body, up to their own checksum; `keys` is that of the last 256.
fn fields_bytes(f: &Fields, keys: u32) -> [u8; 188]
    requires { keys ≡ crc (keys_part f.now) }
    ensures { result ≡ fields_part f.now }
{
    let mut bytes = [0u8; 188];
    put(&mut bytes, at::MAGIC, &MAGIC.to_be_bytes());
    put(&mut bytes, at::VERSION, &VERSION.to_be_bytes());
    put(&mut bytes, at::PROGRAM, &PROGRAM.to_be_bytes());
    put(&mut bytes, at::KEYS_CHECKSUM, &keys.to_be_bytes());
    put(&mut bytes, at::HIDDEN_SIZE, &f.hidden_size.to_be_bytes());
    put(&mut bytes, at::VOLUME_SIZE, &f.volume_size.to_be_bytes());
    put(&mut bytes, at::START, &f.start.to_be_bytes());
    put(&mut bytes, at::ENCRYPTED, &f.encrypted.to_be_bytes());
    put(&mut bytes, at::FLAGS, &f.flags.to_be_bytes());
    put(&mut bytes, at::SECTOR, &f.sector.to_be_bytes());
    bytes
}

// Writes a part at its place.
pub(crate) fn put(bytes: &mut [u8], at: usize, part: &[u8])
    requires { at + length part.now ≤ length bytes.old }
    ensures { bytes.new ≡ take at bytes.old ++ part.now ++ drop (at + length part.now) bytes.old }
{
    bytes[at..at + part.len()].copy_from_slice(part);
}

// The numbers of fields fit their types, which a reference alone does not tell.
fn ranges_are_known(f: &Fields)
    ensures hidden_size { f.now.hidden_size < 2 ^ 64 }
    ensures volume_size { f.now.volume_size < 2 ^ 64 }
    ensures start { f.now.start < 2 ^ 64 }
    ensures encrypted { f.now.encrypted < 2 ^ 64 }
    ensures flags { f.now.flags < 2 ^ 32 }
    ensures sector { f.now.sector < 2 ^ 32 }
{
    let _hidden_size = f.hidden_size;
    let _volume_size = f.volume_size;
    let _start = f.start;
    let _encrypted = f.encrypted;
    let _flags = f.flags;
    let _sector = f.sector;
}

// Magic and version are right.
fn is_marked(plain: &[u8; BODY]) -> bool
    ensures { IsTrue result ↔ (field 64 4 plain.now ≡ 0x56455241) × (field 68 2 plain.now ≡ 5) }
{
    BigEndian::read_u32(&plain[at::MAGIC..]) == MAGIC
        && BigEndian::read_u16(&plain[at::VERSION..]) == VERSION
}

// Both checksums are right. The one over the fields is tested first, since it is shorter.
fn has_checksums(plain: &[u8; BODY]) -> bool
    ensures { IsTrue result ↔ (field 72 4 plain.now ≡ crc (drop 192 plain.now))
        × (field 252 4 plain.now ≡ crc (take 188 plain.now)) }
{
    BigEndian::read_u32(&plain[at::FIELDS_CHECKSUM..]) == crc32(&plain[..at::FIELDS_CHECKSUM])
        && BigEndian::read_u32(&plain[at::KEYS_CHECKSUM..]) == crc32(&plain[at::KEYS..])
}

fn all_fields(plain: &[u8; BODY]) -> Fields
    ensures { result ≡ fields_of plain.now }
{
    let mut material = [0u8; MATERIAL];
    material.copy_from_slice(&plain[at::KEYS..at::KEYS + MATERIAL]);
    Fields {
        hidden_size: BigEndian::read_u64(&plain[at::HIDDEN_SIZE..]),
        volume_size: BigEndian::read_u64(&plain[at::VOLUME_SIZE..]),
        start: BigEndian::read_u64(&plain[at::START..]),
        encrypted: BigEndian::read_u64(&plain[at::ENCRYPTED..]),
        flags: BigEndian::read_u32(&plain[at::FLAGS..]),
        sector: BigEndian::read_u32(&plain[at::SECTOR..]),
        material,
    }
}

fn meets_rules(f: &Fields, slot: Slot, len: u64) -> bool
    requires { 262656 ≤ len }
    ensures { IsTrue result ↔ Meets f.now slot len }
{
    let hidden = matches!(slot, Slot::Hidden | Slot::BackupHidden);
    f.flags & 3 == 0
        && is_sector_size(f.sector)
        && f.start % u64::from(f.sector) == 0
        && f.volume_size % u64::from(f.sector) == 0
        && f.volume_size >= u64::from(f.sector)
        && f.start >= GROUP
        && f.encrypted >= f.volume_size
        && f.start <= len - GROUP
        && f.volume_size.max(f.hidden_size) <= len - GROUP - f.start
        && hidden == (f.hidden_size != 0)
}

#[cfg(test)]
mod tests;
