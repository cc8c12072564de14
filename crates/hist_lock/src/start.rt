//! How a lock begins.
ghost use Rattle.std.specs.Prelude.{◌≡◌, [], IfOk, IfErr};
ghost use Rattle.hist_lock.specs.Known.{IsPassOf, view, newcomer};

use crate::lock::HistLock;
use crate::pass::Pass;
use crate::wait::SPINS;
use atomic_table::{Refused, Table};
use hist_standing::Standing;
use std::alloc::{AllocError, Global};
use std::snapshot::Snapshot;
use std::sync::atomic::AtomicU64;

impl<T: Standing> HistLock<T> {
    /// A lock on the value, whose history is empty, and its first pass, which has the number 0 and the share 1.
    /// Out of memory, the value comes back. No other call on a lock takes memory.
    pub fn new(alloc: Global, value: T) -> Result<(HistLock<T>, Pass<T>), (AllocError, T)>
        requires { T.stands value [] value }
        ensures pass { IfOk result (λ r. IsPassOf r.0.table.shared.table_id r.1.seat) }
        ensures first { IfOk result (λ r. view r.1.seat ≡ newcomer value) }
        ensures err { IfErr result (λ r. r.1 ≡ value) }
    {
        let base = Snapshot::of(&value);
        let mut slots = match Vec::with_capacity(alloc, 1) {
            Ok(slots) => slots,
            Err(error) => return Err((error, value)),
        };
        slots.push_reserved(Some(value));
        match Table::new(alloc, &[0, 0, 1], slots, &base) {
            Ok((table, seat)) => {
                let lock = HistLock {
                    table,
                    asleep: AtomicU64::new(0),
                    spins: SPINS,
                };
                Ok((
                    lock,
                    Pass {
                        seat,
                        number: 0,
                        ended: 0,
                    },
                ))
            }
            Err(Refused { mut slots }) => {
                let last = slots.pop();
                let Some(Some(value)) = last else {
                    unreachable!()
                };
                slots.destroy_empty();
                Err((AllocError, value))
            }
        }
    }
}
