//! The head of a request.
ghost use Rattle.std.specs.Prelude.{◌≡◌, ◌↔◌, take, IfErr, IfOk, IsOk, IsTrue};
ghost use Rattle.nbd_wire.specs.Wire.{has_magic, request_of};

use byteorder::{BigEndian, ByteOrder};

/// The bytes of a head.
pub const HEAD: usize = 28;

const MAGIC: u32 = 0x2560_9513;

/// The fields of a head. Offset and length are in bytes.
#[derive(Clone, Copy, Debug, PartialEq, Eq)]
pub struct Request {
    pub flags: u16,
    pub kind: u16,
    pub cookie: u64,
    pub offset: u64,
    pub length: u32,
}

/// The bytes are no request: they begin with these four.
#[derive(Clone, Copy, Debug, PartialEq, Eq)]
pub struct BadMagic(pub [u8; 4]);

/// The fields of a head.
pub fn read_request(head: &[u8; HEAD]) -> Result<Request, BadMagic>
    ensures magic { IsOk result ↔ IsTrue (has_magic head.now) }
    ensures fields { IfOk result (λ r. r ≡ request_of head.now) }
    ensures bad { IfErr result (λ bad. bad.0 ≡ take 4 head.now) }
{
    if BigEndian::read_u32(&head[..]) != MAGIC {
        return Err(BadMagic([head[0], head[1], head[2], head[3]]));
    }
    Ok(Request {
        flags: BigEndian::read_u16(&head[4..]),
        kind: BigEndian::read_u16(&head[6..]),
        cookie: BigEndian::read_u64(&head[8..]),
        offset: BigEndian::read_u64(&head[16..]),
        length: BigEndian::read_u32(&head[24..]),
    })
}
