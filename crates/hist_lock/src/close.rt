//! The end of a lock.
ghost use Rattle.std.specs.Prelude.{◌≡◌, ◌↔◌, All, Contains, IfErr, IfOk, IsOk, Some};
ghost use Rattle.hist_lock.specs.Known.{IsPassOf, IsWhole, view, closed, numbers_of};

use crate::lock::HistLock;
use crate::pass::Pass;
use crate::plays::{Closing, Remember};
use crate::view::NUMBERS;
use hist_standing::Standing;

impl<T: Standing> HistLock<T> {
    /// Gives the value back, if the pass has the whole share: then every other pass of the lock has ended in it, or
    /// in one that did. The pass that comes back is the one that was given, which has seen the whole history.
    /// Otherwise nothing has changed. It waits for nobody.
    pub fn close(self, mut pass: Pass<T>) -> Result<(T, Pass<T>), (HistLock<T>, Pass<T>)>
        requires pass { IsPassOf self.table.shared.table_id pass.seat }
        ensures whole { IsOk result ↔ IsWhole (view pass.seat) }
        ensures pass { IfOk result (λ r. view r.1.seat ≡ closed (view pass.seat)) }
        ensures value { IfOk result (λ r. (base : T) × ((view r.1.seat).base ≡ Some base) × T.stands base (view r.1.seat).seen r.0) }
        ensures callers { IfOk result (λ r. All (λ e. Contains (numbers_of (view r.1.seat)) (T.number e)) (view r.1.seat).seen) }
        ensures err { IfErr result (λ r. (r.0 ≡ self) × (r.1.seat.table_id ≡ pass.seat.table_id) × (view r.1.seat ≡ view pass.seat)) }
    {
        let found = self.table.shared.load::<Closing>(&mut pass.seat, NUMBERS);
        if pass.ended != found - 1 {
            return Err((self, pass));
        }
        let HistLock {
            table,
            asleep: _,
            spins: _,
        } = self;
        let Pass {
            mut seat,
            number,
            ended,
        } = pass;
        let memo = table.shared.split_seat::<Remember>(&mut seat);
        let mut last = table.close_with(seat);
        let slot = last.take(0);
        last.free();
        let Some(value) = slot else { unreachable!() };
        Ok((
            value,
            Pass {
                seat: memo,
                number,
                ended,
            },
        ))
    }
}
