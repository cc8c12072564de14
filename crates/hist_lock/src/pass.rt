//! A caller's token.
ghost use Rattle.std.specs.Prelude.{◌≡◌, ◌≢◌, false, [], length, AllPairs};
ghost use Rattle.hist_lock.specs.History.{entries};
ghost use Rattle.hist_lock.specs.Known.{numbers_of};

use crate::view::View;
use atomic_table::Seat;
use hist_standing::Standing;

/// A caller's token for one lock. Clauses see what it knows as `view pass.seat`.
///
/// A pass that is dropped takes its share with it: then the lock can't be closed any more.
#[derive(Drop)]
pub struct Pass<T: Standing> {
    pub(crate) seat: Seat<Option<T>, View<T, T::Entry>>,
    pub(crate) number: u64,
    /// How many passes were joined into it.
    pub(crate) ended: u64,
    ghost carries: { seat.me.1 ≡ [] },
    ghost drawn: { seat.me.0.drawn ≡ false },
    ghost holds: { seat.me.0.holds ≡ false },
    ghost spare: { seat.me.0.spare ≡ [] },
    ghost number_is: { number ≡ seat.me.0.number },
    ghost ended_is: { ended ≡ length seat.me.0.under },
    ghost apart: { AllPairs (λ m n. m ≢ n) (numbers_of seat.me.0) },
    ghost own: { entries T.number seat.me.0.number seat.me.0.seen ≡ seat.me.0.mine },
}

impl<T: Standing> Pass<T> {
    ghost use Rattle.hist_lock.specs.Known.{view};

    /// The number under which its entries are.
    pub fn number(&self) -> u64
        ensures number { result ≡ (view self.now.seat).number }
        ensures mine { entries T.number result (view self.now.seat).seen ≡ (view self.now.seat).mine }
    {
        self.number
    }
}
