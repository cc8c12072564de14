//! How a session ends.

/// How a session ended.
#[derive(Clone, Copy, Debug, PartialEq, Eq)]
pub enum End {
    /// The client disconnected, or its bytes ended between two requests.
    Done,
    /// The client's bytes ended inside a request, which has no effect.
    Cut,
    /// Four bytes where a request has its magic.
    BadMagic([u8; 4]),
    /// The source failed.
    ReadFault,
    /// The sink failed.
    WriteFault,
    /// The sink ran out of memory.
    NoMemory,
}
