//! How a handshake ends.

/// Why a client is refused.
#[derive(Clone, Copy, Debug, PartialEq, Eq)]
pub enum Refusal {
    /// Client flags of which one is unknown (NBD protocol, "Client flags").
    Flags(u32),
    /// Eight bytes where an option has its magic.
    Magic([u8; 8]),
    /// Option 1 asks for an export whose name has this many bytes. Its reply has no form for an error.
    Name(u32),
    /// 1,024 options were answered, and none of them ended the handshake.
    TooMany,
}

/// How a handshake ended.
#[derive(Clone, Copy, Debug, PartialEq, Eq)]
pub enum HandEnd {
    /// The session follows.
    Go,
    /// The client ended it.
    Aborted,
    /// The client's bytes ended before.
    Cut,
    Refused(Refusal),
    /// The source failed.
    ReadFault,
    /// The sink failed.
    WriteFault,
    /// The sink ran out of memory.
    NoMemory,
}
