//! The work of one thread, and its pass.
use frag_pool::{Bench, Helper};
use hist_lock::{Pass, Standing};
use nbd_hand::HandEnd;
use nbd_wire::End;
use vc_outside::Client;

/// The work of one thread, and the pass that it is done with.
pub(crate) struct Task<T: Standing, I, O> {
    pub(crate) pass: Pass<T>,
    pub(crate) work: Work<I, O>,
}

/// What a thread does.
pub(crate) enum Work<I, O> {
    /// It serves a client.
    Serve(Service<I, O>),
    /// It helps with the writes of all clients.
    Help(Helper),
}

/// A client, its bench, and how it was served.
pub(crate) struct Service<I, O> {
    pub(crate) bench: Bench,
    pub(crate) client: Client<I, O>,
    /// How its handshake ended, or `Go` if it had none.
    pub(crate) hand: HandEnd,
    /// How its session ended.
    pub(crate) end: End,
    pub(crate) replies: u64,
}
