//! Clients in memory whose calls fail as planned, and what has to be replied to them.
use crate::lines::arguments_of;
use crate::misses::{SlowSink, Way};
use std::alloc::{AllocError, Global};
use std::sync::Wait;
use std::test::Fail;
use std::thread::Threads;
use vc_app::{ServeEnd, run_serve};
use vc_outside::{Client, Gate, MemSource, MemStore, SureSink};

/// No call has this number.
pub const NEVER: u64 = u64::MAX;

/// A sink that takes each piece whole.
pub const WHOLE: Way = Way::Pieces(usize::MAX);

/// A disconnect with the cookie 9.
pub const DISCONNECT: &[u8] =
    b"\x25\x60\x95\x13\x00\x00\x00\x02\x00\x00\x00\x00\x00\x00\x00\x09\x00\x00\x00\x00\x00\x00\x00\x00\x00\x00\x00\x00";

/// A request and its reply: flags, type, offset and length; the error; and what fills the first sector of a write.
/// The cookie is its index.
#[derive(Clone, Copy)]
pub struct Turn(pub u16, pub u16, pub u64, pub u32, pub u32, pub u8);

/// A client whose calls fail as planned.
pub type Link = Client<MemSource, SlowSink>;

/// What a call of `serve` with such clients leaves.
pub type Ended = ServeEnd<MemStore, MemSource, SlowSink, SureSink>;

/// The byte k of a payload, whose sectors differ.
pub fn payload_byte(first: u8, k: usize) -> u8 {
    first ^ (k / 512 % 256) as u8
}

/// What a client sends that makes these requests.
pub fn sent_by(alloc: Global, turns: &[Turn]) -> Result<Vec<u8>, AllocError> {
    let mut bytes = Vec::new(alloc);
    for (i, turn) in turns.iter().enumerate() {
        let Turn(flags, kind, offset, length, _, first) = *turn;
        bytes.extend_from_slice(b"\x25\x60\x95\x13")?;
        bytes.extend_from_slice(&flags.to_be_bytes())?;
        bytes.extend_from_slice(&kind.to_be_bytes())?;
        bytes.extend_from_slice(&u64::to_be_bytes(i as u64))?;
        bytes.extend_from_slice(&offset.to_be_bytes())?;
        bytes.extend_from_slice(&length.to_be_bytes())?;
        if kind == 1 {
            for k in 0..length as usize {
                bytes.push(payload_byte(first, k))?;
            }
        }
    }
    Ok(bytes)
}

/// The replies to these requests if the volume has these bytes at first. The bytes become those after the requests.
pub fn replies_to(alloc: Global, plain: &mut [u8], turns: &[Turn]) -> Result<Vec<u8>, AllocError> {
    let mut bytes = Vec::new(alloc);
    for (i, turn) in turns.iter().enumerate() {
        let Turn(_, _, _, _, error, _) = *turn;
        bytes.extend_from_slice(b"\x67\x44\x66\x98")?;
        bytes.extend_from_slice(&error.to_be_bytes())?;
        bytes.extend_from_slice(&u64::to_be_bytes(i as u64))?;
        if error == 0 {
            carry_out(plain, turn, &mut bytes)?;
        }
    }
    Ok(bytes)
}

// Writes a payload to the volume's bytes, or adds what is read of them to a reply.
fn carry_out(plain: &mut [u8], turn: &Turn, reply: &mut Vec<u8>) -> Result<(), AllocError> {
    let Turn(_, kind, offset, length, _, first) = *turn;
    let sectors = plain.iter_mut().skip(offset as usize).take(length as usize);
    for (k, byte) in sectors.enumerate() {
        if kind == 1 {
            *byte = payload_byte(first, k);
        }
        if kind == 0 {
            reply.push(*byte)?;
        }
    }
    Ok(())
}

/// A client that sends these bytes, of which a call gives `cut` at most, or 1 if that is 0. The call `fails` fails.
pub fn client(
    alloc: Global,
    sent: Vec<u8>,
    cut: usize,
    fails: u64,
    way: Way,
) -> Result<Link, AllocError> {
    Ok(Client {
        source: MemSource::new(sent, cut.max(1), Vec::from_slice(alloc, &[fails])?),
        sink: SlowSink::new(alloc, way),
    })
}

/// Serves clients over a container, of which the call `fails` fails.
pub fn serve<R: Threads + Wait + Sync + AllocGlobal, G: Gate>(
    rt: &R,
    line: &str,
    image: &[u8],
    fails: u64,
    clients: Vec<Link>,
    gate: &G,
) -> Result<Ended, Fail> {
    let alloc = rt.alloc();
    let arguments = arguments_of(alloc, line)?;
    let bytes = Vec::from_slice(alloc, image)?;
    let fails = Vec::from_slice(alloc, &[fails])?;
    let disk = MemStore::new(alloc, bytes, fails, None, 4_096, 8 << 20)?;
    let out = SureSink::new(alloc);
    Ok(run_serve(rt, alloc, arguments.as_slice(), disk, clients, out, gate))
}
