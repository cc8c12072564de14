//! One pass becomes two, and two become one.
ghost use Rattle.std.specs.Prelude.{◌≡◌, ◌+◌, ◌≤◌, [], ◌∷◌, ◌++◌, max};
ghost use Rattle.hist_lock.specs.History.{StartsWith, entries, SameUnder};
ghost use Rattle.hist_lock.specs.Known.{IsPassOf, view, IsSame, Halves, Adds, longer};
ghost use Rattle.hist_lock.specs.Laws.Steps.{Idle, numbered};

use crate::lock::HistLock;
use crate::pass::Pass;
use crate::plays::{Halve, Meet, Name, Unite};
use crate::view::{NUMBERS, View};
use atomic_table::Seat;
use hist_standing::Standing;
use std::sync::Wait;
use std::thread::Threads;

impl<T: Standing> HistLock<T> {
    /// A new pass, with half of the share and a number that no pass had before: numbers are given in order, and
    /// `given` says how many the pass knows of. It has seen what `pass` has, and has no entries of its own.
    /// It doesn't return once all numbers of a u64 were given.
    pub fn split<R: Threads + Wait + Sync>(&self, rt: &R, pass: &mut Pass<T>) -> Pass<T>
        requires pass { IsPassOf self.now.table.shared.table_id pass.old.seat }
        ensures pass { IsPassOf self.now.table.shared.table_id pass.new.seat }
        ensures new { IsPassOf self.now.table.shared.table_id result.seat }
        ensures same { IsSame (view pass.old.seat) (view pass.new.seat) }
        ensures kept { ((view pass.new.seat).seen ≡ (view pass.old.seat).seen) × ((view pass.new.seat).mine ≡ (view pass.old.seat).mine) }
        ensures halves { Halves (view pass.old.seat) (view pass.new.seat) × Halves (view pass.old.seat) (view result.seat) }
        ensures fresh { ((view pass.old.seat).given ≤ (view result.seat).number)
            × ((view pass.new.seat).given ≡ (view result.seat).number + 1)
            × ((view result.seat).given ≡ (view result.seat).number + 1) }
        ensures base { (view result.seat).base ≡ (view pass.old.seat).base }
        ensures seen { (view result.seat).seen ≡ (view pass.old.seat).seen }
        ensures empty { ((view result.seat).mine ≡ []) × ((view result.seat).under ≡ []) }
    {
        let number = self.name(rt, &mut pass.seat);
        let seat = self.table.shared.split_seat::<Halve>(&mut pass.seat);
        Pass {
            seat,
            number,
            ended: 0,
        }
    }

    // Gives the pass a number for another pass.
    fn name<R: Wait>(&self, rt: &R, seat: &mut Seat<Option<T>, View<T, T::Entry>>) -> u64
        requires table { seat.old.table_id ≡ self.now.table.shared.table_id }
        requires idle { Idle seat.old.me × (seat.old.me.0.spare ≡ []) }
        ensures table { seat.new.table_id ≡ seat.old.table_id }
        ensures named { seat.new.me ≡ (numbered result seat.old.me.0, []) }
        ensures fresh { (seat.old.me.0.given ≤ result) × (entries T.number result seat.old.me.0.seen ≡ []) }
    {
        for _ in rt.forever() {
            let number = self.table.shared.peek(NUMBERS);
            if number < u64::MAX {
                let found = self
                    .table
                    .shared
                    .compare_exchange::<Name>(seat, NUMBERS, number, number + 1);
                if found == number {
                    return number;
                }
            } else {
                self.table.shared.park(rt, NUMBERS, u32::MAX);
            }
        }
        unreachable!()
    }

    /// Ends `other`, and keeps `pass`, which then has seen what either had, has the sum of the shares, and lists
    /// the other's number and those of the passes that had ended in it.
    pub fn join(&self, pass: &mut Pass<T>, other: Pass<T>)
        requires pass { IsPassOf self.now.table.shared.table_id pass.old.seat }
        requires other { IsPassOf self.now.table.shared.table_id other.seat }
        ensures pass { IsPassOf self.now.table.shared.table_id pass.new.seat }
        ensures same { ((view pass.new.seat).base ≡ (view pass.old.seat).base) × ((view pass.new.seat).number ≡ (view pass.old.seat).number)
            × ((view pass.new.seat).mine ≡ (view pass.old.seat).mine) }
        ensures share { Adds (view pass.old.seat) (view other.seat) (view pass.new.seat) }
        ensures under { (view pass.new.seat).under ≡ (view pass.old.seat).under ++ (view other.seat).number ∷ (view other.seat).under }
        ensures given { (view pass.new.seat).given ≡ max (view pass.old.seat).given (view other.seat).given }
        ensures longer { (view pass.new.seat).seen ≡ longer (view pass.old.seat).seen (view other.seat).seen }
        ensures seen { StartsWith (view pass.new.seat).seen (view pass.old.seat).seen × StartsWith (view pass.new.seat).seen (view other.seat).seen }
        ensures joined { entries T.number (view other.seat).number (view pass.new.seat).seen ≡ (view other.seat).mine }
        ensures ended { SameUnder T.number (view other.seat).under (view pass.new.seat).seen (view other.seat).seen }
        ensures settled { SameUnder T.number (view pass.old.seat).under (view pass.new.seat).seen (view pass.old.seat).seen }
    {
        let Pass {
            seat,
            number: _,
            ended,
        } = other;
        self.table.shared.join_seat::<Unite>(&mut pass.seat, seat);
        let _ = self.table.shared.load::<Meet>(&mut pass.seat, NUMBERS);
        pass.ended = pass.ended + ended + 1;
    }
}
