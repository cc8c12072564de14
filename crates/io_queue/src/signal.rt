//! Sleeping until an event.
//!
//! ```text
//!   who waits     seen := count;  looks;  waiting += 1;  park while count is seen;  waiting -= 1
//!   who tells     count += 1;  if waiting isn't 0, wake all
//! ```
//!
//! No event is missed: if the teller reads no waiter, the waiter finds that the count isn't what it has seen,
//! and doesn't sleep. No clause rests on the two words.
use std::sync::Wait;
use std::sync::atomic::AtomicU64;
use std::sync::atomic::Ordering::SeqCst;

#[derive(Drop)]
pub(crate) struct Signal {
    count: AtomicU64,
    waiting: AtomicU64,
}

impl Signal {
    pub(crate) fn new() -> Signal {
        Signal {
            count: AtomicU64::new(0),
            waiting: AtomicU64::new(0),
        }
    }

    // How many events there were.
    pub(crate) fn count(&self) -> u64 {
        self.count.load(SeqCst)
    }

    // Tells an event.
    pub(crate) fn tell(&self) {
        self.count.fetch_add(1, SeqCst);
        if self.waiting.load(SeqCst) != 0 {
            self.count.wake_all();
        }
    }

    // Sleeps until there was another event than those of `seen`. It may also return for no reason.
    pub(crate) fn wait<R: Wait>(&self, rt: &R, seen: u64) {
        self.waiting.fetch_add(1, SeqCst);
        self.count.park(rt, (seen & 0xffff_ffff) as u32);
        self.waiting.fetch_sub(1, SeqCst);
    }
}

#[cfg(test)]
mod tests {
    use super::*;
    use std::hint::spin_loop;
    use std::thread;

    // Sleeps until the first event.
    fn sleep<R: Wait>(rt: &R, signal: &Signal) {
        for _ in rt.forever() {
            if signal.count() != 0 {
                break;
            }
            signal.wait(rt, 0);
        }
    }

    // Tells it once the other thread sleeps or is about to.
    fn wake(signal: &Signal) {
        for _ in 0..1_000_000_000u64 {
            if signal.waiting.load(SeqCst) != 0 {
                break;
            }
            spin_loop();
        }
        signal.tell();
    }

    #[test]
    fn who_sleeps_is_woken_by_an_event(rt: HostRuntime) {
        let signal = Signal::new();
        thread::join(&rt, || sleep(&rt, &signal), || wake(&signal));
        assert_eq!(rt; signal.count(), 1);
    }
}
