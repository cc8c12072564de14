//! What a lane of a session has.
use crate::queued::Queued;
use frag_pool::Bench;
use hist_lock::{Pass, Standing};
use nbd_wire::{Outcome, Request};

/// What a lane of a session has: a pass, a bench for its writes' fragments, and the request that is its own in a wave.
pub struct Lane<T: Standing> {
    pub pass: Pass<T>,
    pub bench: Bench,
    pub stage: Stage,
}

/// How far the request of a lane is.
#[derive(Drop)]
pub enum Stage {
    /// It has none.
    Free,
    /// It waits to be carried out.
    Waits(Queued),
    /// It was carried out, and this is the reply.
    Done(Reply),
}

/// A reply that isn't written yet.
#[derive(Drop)]
pub enum Reply {
    /// It has no data.
    Alone(Request, Outcome),
    /// It is that of a read that was done. The data are in the buffer, behind 16 bytes for the reply's head.
    Data(Request, Vec<u8>),
}
