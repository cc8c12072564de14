//! What a request asks for.
ghost use Rattle.std.specs.Prelude.{◌≡◌};
ghost use Rattle.nbd_wire.specs.Classes.{are_sectors, asked};
ghost use Rattle.vc_layout.specs.Layout.{IsSectorSize};

use crate::request::Request;

const READ: u16 = 0;

const WRITE: u16 = 1;

const DISCONNECT: u16 = 2;

const FLUSH: u16 = 3;

// The flag of a write whose data has to be lasting before the reply. No other flag is known.
const FUA: u16 = 1;

// The most bytes of a read or write.
const MOST: u32 = 32 << 20;

/// What a request asks for. First and count are in sectors.
#[derive(Clone, Copy, Debug, PartialEq, Eq)]
pub enum Ask {
    Read { first: u64, count: u64 },
    Write { first: u64, count: u64, fua: bool },
    Flush,
    /// The client ends the session. There is no reply.
    Disconnect,
    /// The request is refused whatever the volume is.
    Malformed,
}

/// What the request asks of a volume with sectors of `sector` bytes.
pub fn ask_of(r: &Request, sector: u32) -> Ask
    requires { IsSectorSize sector }
    ensures { result ≡ asked sector r.now }
{
    if r.kind == DISCONNECT {
        return Ask::Disconnect;
    }
    if r.flags > FUA {
        return Ask::Malformed;
    }
    if r.kind == FLUSH {
        return Ask::Flush;
    }
    if r.kind > WRITE || !is_whole(r, sector) {
        return Ask::Malformed;
    }
    let first = r.offset / u64::from(sector);
    let count = u64::from(r.length / sector);
    if r.kind == READ {
        return Ask::Read { first, count };
    }
    Ask::Write {
        first,
        count,
        fua: r.flags == FUA,
    }
}

// Whether offset and length are whole sectors, as many as a request may have.
fn is_whole(r: &Request, sector: u32) -> bool
    requires { IsSectorSize sector }
    ensures { result ≡ are_sectors sector r.now }
{
    0 < r.length && r.length <= MOST && r.length % sector == 0 && r.offset % u64::from(sector) == 0
}
