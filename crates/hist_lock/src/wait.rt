//! How a thread gets its turn.
//!
//! A thread that finds the lock in use looks again about a hundred times, and then sleeps on the serving
//! word. It draws its ticket only when the lock looks free, so that no running thread waits for a
//! sleeping one. After `PATIENCE` sleeps it draws one in any case: then nobody who comes later is served
//! before it.
//!
//! ```text
//!   a thread that sleeps          asleep := 1, then park while serving is what it read
//!   a turn that is passed on      serving += 1, then, if asleep was 1: asleep := 0 and wake
//!   a thread that was woken       asleep := 1, since it may have been one of several
//! ```
//!
//! One thread is woken if nobody waits with a ticket, since any will do. Otherwise all are, since only the
//! ticket's owner can go on. No wake-up is lost: a thread that sets `asleep` after the other has read it
//! finds that the serving word has changed, and doesn't sleep.
ghost use Rattle.std.specs.Prelude.{◌≡◌, []};
ghost use Rattle.hist_lock.specs.Laws.Steps.{Holds, Idle, Waits, queued};

use crate::lock::HistLock;
use crate::plays::{Draw, Look};
use crate::view::{SERVING, TICKETS, View};
use atomic_table::Seat;
use hist_standing::Standing;
use std::hint::spin_loop;
use std::sync::Wait;
use std::sync::atomic::Ordering::SeqCst;

/// How often a thread looks at the lock before it sleeps: some microseconds.
pub(crate) const SPINS: u32 = 100;

/// How often a thread sleeps before it draws a ticket while the lock is in use.
const PATIENCE: u32 = 8;

impl<T: Standing> HistLock<T> {
    // Draws a ticket, and waits until it is served: then the pass has the value.
    pub(crate) fn enter<R: Wait>(&self, rt: &R, seat: &mut Seat<Option<T>, View<T, T::Entry>>)
        requires table { seat.old.table_id ≡ self.now.table.shared.table_id }
        requires idle { Idle seat.old.me }
        ensures table { seat.new.table_id ≡ seat.old.table_id }
        ensures holds { (ticket : _) × Holds T.stands T.number (queued ticket seat.old.me.0, []) seat.new.me }
    {
        let ticket = self.draw(rt, seat);
        self.wait(rt, seat, ticket);
    }

    // Draws a ticket. Where 2^64 - 1 were drawn it doesn't return.
    fn draw<R: Wait>(&self, rt: &R, seat: &mut Seat<Option<T>, View<T, T::Entry>>) -> u64
        requires table { seat.old.table_id ≡ self.now.table.shared.table_id }
        requires idle { Idle seat.old.me }
        ensures table { seat.new.table_id ≡ seat.old.table_id }
        ensures drawn { seat.new.me ≡ (queued result seat.old.me.0, []) }
    {
        let mut looks = 0;
        let mut sleeps = 0;
        for _ in rt.forever() {
            let ticket = self.table.shared.peek(TICKETS);
            let serving = self.table.shared.peek(SERVING);
            if ticket < u64::MAX && (ticket == serving || sleeps >= PATIENCE) {
                let found = self
                    .table
                    .shared
                    .compare_exchange::<Draw>(seat, TICKETS, ticket, ticket + 1);
                if found == ticket {
                    return ticket;
                }
            } else if looks < self.spins {
                looks += 1;
                spin_loop();
            } else {
                self.sleep(rt, serving);
                if sleeps < PATIENCE {
                    sleeps += 1;
                }
            }
        }
        unreachable!()
    }

    // Waits until the ticket that the pass has drawn is served, and takes the value.
    fn wait<R: Wait>(&self, rt: &R, seat: &mut Seat<Option<T>, View<T, T::Entry>>, ticket: u64)
        requires table { seat.old.table_id ≡ self.now.table.shared.table_id }
        requires waits { Waits ticket seat.old.me }
        ensures table { seat.new.table_id ≡ seat.old.table_id }
        ensures holds { Holds T.stands T.number seat.old.me seat.new.me }
    {
        let mut looks = 0;
        for _ in rt.forever() {
            let serving = self.table.shared.load::<Look>(seat, SERVING);
            if serving == ticket {
                return;
            }
            if looks < self.spins {
                looks += 1;
                spin_loop();
            } else {
                self.sleep(rt, serving);
            }
        }
        unreachable!()
    }

    // Sleeps while `serving` is the ticket that is served. It may also return for no reason.
    fn sleep<R: Wait>(&self, rt: &R, serving: u64) {
        self.asleep.store(1, SeqCst);
        self.table
            .shared
            .park(rt, SERVING, (serving & 0xffff_ffff) as u32);
        self.asleep.store(1, SeqCst);
    }

    // Wakes whoever can go on, after a turn was passed on.
    pub(crate) fn wake(&self) {
        if self.asleep.load(SeqCst) == 0 || self.asleep.swap(0, SeqCst) == 0 {
            return;
        }
        if self.table.shared.peek(TICKETS) == self.table.shared.peek(SERVING) {
            self.table.shared.wake_one(SERVING);
        } else {
            self.table.shared.wake_all(SERVING);
        }
    }
}
