//! Replies, and their error numbers.
ghost use Rattle.std.specs.Prelude.{◌≡◌};
ghost use Rattle.nbd_wire.specs.Replies.{error_of};
ghost use Rattle.nbd_wire.specs.Wire.{reply};

use byteorder::{BigEndian, ByteOrder};

/// The bytes of a reply, without the data of a read.
pub const REPLY: usize = 16;

const MAGIC: u32 = 0x6744_6698;

/// What came of a request.
#[derive(Clone, Copy, Debug, PartialEq, Eq)]
pub enum Outcome {
    /// It was done.
    Done,
    /// It is refused whatever the volume is.
    Malformed,
    /// A read passes the volume's end.
    ReadBeyond,
    /// A write passes the volume's end.
    WriteBeyond,
    /// A write touches a protected sector.
    Denied,
    /// A write came after one that was denied.
    Frozen,
    /// The container failed. A write may have been stored in part.
    Fault,
    /// Out of memory. Nothing was done.
    NoMemory,
}

impl Outcome {
    /// The error number of the reply. `docs/PROTOCOL.md`, "Replies", has their names.
    pub fn error(self) -> u32
        ensures { result ≡ error_of self }
    {
        match self {
            Outcome::Done => 0,
            Outcome::Denied => 1,
            Outcome::Frozen => 1,
            Outcome::Fault => 5,
            Outcome::NoMemory => 12,
            Outcome::Malformed => 22,
            Outcome::ReadBeyond => 22,
            Outcome::WriteBeyond => 28,
        }
    }
}

/// Writes the head of a reply, which is all of it unless it is that of a successful read.
pub fn write_reply(error: u32, cookie: u64, out: &mut [u8; REPLY])
    ensures { out.new ≡ reply error cookie }
{
    BigEndian::write_u32(&mut out[..], MAGIC);
    BigEndian::write_u32(&mut out[4..], error);
    BigEndian::write_u64(&mut out[8..], cookie);
}
