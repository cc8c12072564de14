//! How many clients have ended, by which helpers know when to stop. No clause rests on the count.
use std::sync::atomic::AtomicU64;
use std::sync::atomic::Ordering::SeqCst;

#[derive(Drop)]
pub(crate) struct Ended {
    count: AtomicU64,
    clients: u64,
}

impl Ended {
    // None of so many clients has ended.
    pub(crate) fn new(clients: u64) -> Ended {
        Ended {
            count: AtomicU64::new(0),
            clients,
        }
    }

    // One more client has ended.
    pub(crate) fn add(&self) {
        self.count.fetch_add(1, SeqCst);
    }

    // Whether all clients have ended.
    pub(crate) fn are_all(&self) -> bool {
        self.count.load(SeqCst) >= self.clients
    }
}
