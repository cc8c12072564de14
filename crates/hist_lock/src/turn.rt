//! A turn: the pass gets the value, acts on it once, puts it back and passes the turn on.
ghost use Rattle.std.specs.Prelude.{◌≡◌, ℕ, true, false, List, [], ◌∷◌, ◌++◌, All, Some};
ghost use Rattle.hist_lock.specs.History.{StartsWith, entries, SameUnder};
ghost use Rattle.hist_lock.specs.Known.{IsPassOf, view, IsSame, SameShare};
ghost use Rattle.hist_lock.specs.Laws.Steps.{done};

use crate::act::Act;
use crate::lock::HistLock;
use crate::pass::Pass;
use crate::plays::{Added, PassOn};
use crate::view::{Law, SERVING, View};
use atomic_table::{Seat, Shared};
use hist_standing::Standing;
use std::marker::Brand;
use std::snapshot::Snapshot;
use std::sync::Wait;
use std::thread::Threads;

impl<T: Standing> HistLock<T> {
    /// Waits for the pass's turn, acts once on the value, and passes the turn on.
    /// It doesn't return once 2^64 - 1 turns were drawn.
    pub fn turn<A: Act<T>, R: Threads + Wait + Sync>(&self, rt: &R, pass: &mut Pass<T>, act: &mut A)
        requires pass { IsPassOf self.now.table.shared.table_id pass.old.seat }
        requires may { (base : T) (log : List T.Entry) → (view pass.old.seat).base ≡ Some base
            → StartsWith log (view pass.old.seat).seen
            → entries T.number (view pass.old.seat).number log ≡ (view pass.old.seat).mine
            → A.may act.old base log }
        ensures pass { IsPassOf self.now.table.shared.table_id pass.new.seat }
        ensures same { IsSame (view pass.old.seat) (view pass.new.seat) × SameShare (view pass.old.seat) (view pass.new.seat) }
        ensures acted { (es : List T.Entry) × (between : List T.Entry)
            × A.allows act.old act.new (view pass.old.seat).number es
            × All (λ e. T.number e ≡ (view pass.old.seat).number) es
            × ((view pass.new.seat).seen ≡ ((view pass.old.seat).seen ++ between) ++ es)
            × ((view pass.new.seat).mine ≡ (view pass.old.seat).mine ++ es) }
        ensures stands { (base : T) × (value : T) × ((view pass.new.seat).base ≡ Some base)
            × T.stands base (view pass.new.seat).seen value }
        ensures settled { SameUnder T.number (view pass.old.seat).under (view pass.new.seat).seen (view pass.old.seat).seen }
    {
        self.enter(rt, &mut pass.seat);
        act_once(&self.table.shared, &mut pass.seat, act, pass.number);
        self.wake();
    }
}

// The pass has the value: acts on it, puts it back and passes the turn on.
fn act_once<T: Standing, A: Act<T>>(
    shared: &Shared<Option<T>, View<T, T::Entry>, Snapshot<T>, Law>,
    seat: &mut Seat<Option<T>, View<T, T::Entry>>,
    act: &mut A,
    caller: u64,
)
    requires table { (seat.old.table_id ≡ shared.now.table_id) × (shared.now.table_id.words ≡ 3) × (shared.now.table_id.slots ≡ 1) }
    requires pass { (seat.old.me.0.live ≡ true) × (seat.old.me.0.holds ≡ true) × (seat.old.me.0.spare ≡ []) × (seat.old.me.0.number ≡ caller) }
    requires value { (base : T) × (value : T) × (seat.old.me.0.base ≡ Some base) × (seat.old.me.1 ≡ (0, Some value) ∷ [])
        × T.stands base seat.old.me.0.seen value × A.may act.old base seat.old.me.0.seen }
    ensures table { seat.new.table_id ≡ seat.old.table_id }
    ensures acted { (es : List T.Entry) × (seat.new.me ≡ (done es seat.old.me.0, []))
        × A.allows act.old act.new caller es × All (λ e. T.number e ≡ caller) es
        × ((base : T) × (value : T) × (seat.old.me.0.base ≡ Some base) × T.stands base (seat.old.me.0.seen ++ es) value) }
{
    let taken = shared.exchange(seat, 0, None);
    let Some(mut value) = taken else {
        unreachable!()
    };
    let asked = Snapshot::of(act);
    let before = Snapshot::of(&value);
    act.act(&mut value, caller);
    let answered = Snapshot::of(act);
    let after = Snapshot::of(&value);
    let hole = shared.exchange(seat, 0, Some(value));
    let None = hole else { unreachable!() };
    pass_on::<T, A, Brand>(shared, seat, &asked, &before, &answered, &after, caller);
}

// Passes the turn on, with the entries that the act has added: they are read from the snapshots, in proofs alone.
fn pass_on<T: Standing, A: Act<T>, W: Added<T::Entry>>(
    shared: &Shared<Option<T>, View<T, T::Entry>, Snapshot<T>, Law>,
    seat: &mut Seat<Option<T>, View<T, T::Entry>>,
    asked: &Snapshot<A>,
    before: &Snapshot<T>,
    answered: &Snapshot<A>,
    after: &Snapshot<T>,
    caller: u64,
)
    requires table { (seat.old.table_id ≡ shared.now.table_id) × (shared.now.table_id.words ≡ 3) × (shared.now.table_id.slots ≡ 1) }
    requires pass { (seat.old.me.0.live ≡ true) × (seat.old.me.0.holds ≡ true) × (seat.old.me.0.spare ≡ []) }
    requires home { (base : T) × (value : T) × (seat.old.me.0.base ≡ Some base) × (seat.old.me.1 ≡ (0, Some value) ∷ [])
        × T.stands base (seat.old.me.0.seen ++ W.added) value }
    requires own { All (λ e. T.number e ≡ seat.old.me.0.number) W.added }
    ensures table { seat.new.table_id ≡ seat.old.table_id }
    ensures passed { seat.new.me ≡ (done W.added seat.old.me.0, []) }
{
    let _ = asked;
    let _ = before;
    let _ = answered;
    let _ = after;
    let _ = caller;
    shared.fetch_add::<PassOn<W>>(seat, SERVING, 1);
}
