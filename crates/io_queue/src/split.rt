//! Passes for other threads.
ghost use Rattle.std.specs.Prelude.{◌≡◌, ◌+◌, ◌≤◌, [], ◌∷◌, ◌++◌, max};
ghost use Rattle.hist_lock.specs.History.{StartsWith, entries, SameUnder};
ghost use Rattle.hist_lock.specs.Known.{Adds, Halves, IsSame, longer, view};
ghost use Rattle.io_queue.specs.Pass.{caller_of, IsPass, NothingOpen, StandsFor};

use crate::volume::Volume;
use cipher_base::UnitCipher;
use hist_lock::Pass;
use io_core::Core;
use std::sync::Wait;
use std::thread::Threads;
use vc_outside::Store;

impl<S: Store, C: UnitCipher> Volume<S, C> {
    /// A pass for another thread, with half of the share and a number that no pass had before. It has seen
    /// what `pass` has, and has no entries of its own.
    pub fn split<R: Threads + Wait + Sync>(
        &self,
        rt: &R,
        pass: &mut Pass<Core<S, C>>,
    ) -> Pass<Core<S, C>>
        requires pass { IsPass self.now.lock.table.shared.table_id self.now.geometry self.now.cipher pass.old.seat }
        requires open { NothingOpen (view pass.old.seat) }
        ensures pass { IsPass self.now.lock.table.shared.table_id self.now.geometry self.now.cipher pass.new.seat }
        ensures new { IsPass self.now.lock.table.shared.table_id self.now.geometry self.now.cipher result.seat }
        ensures open { NothingOpen (view pass.new.seat) × NothingOpen (view result.seat) }
        ensures same { IsSame (view pass.old.seat) (view pass.new.seat) }
        ensures kept { ((view pass.new.seat).seen ≡ (view pass.old.seat).seen)
            × ((view pass.new.seat).mine ≡ (view pass.old.seat).mine) }
        ensures halves { Halves (view pass.old.seat) (view pass.new.seat) × Halves (view pass.old.seat) (view result.seat) }
        ensures fresh { ((view pass.old.seat).given ≤ (view result.seat).number)
            × ((view pass.new.seat).given ≡ (view result.seat).number + 1)
            × ((view result.seat).given ≡ (view result.seat).number + 1) }
        ensures base { (view result.seat).base ≡ (view pass.old.seat).base }
        ensures seen { (view result.seat).seen ≡ (view pass.old.seat).seen }
        ensures empty { ((view result.seat).mine ≡ []) × ((view result.seat).under ≡ []) }
    {
        self.lock.split(rt, pass)
    }

    /// Ends `other`, and keeps `pass`, which then has seen what either had, has the sum of the shares, and lists
    /// the other's number and those of the passes that had ended in it.
    pub fn join(&self, pass: &mut Pass<Core<S, C>>, other: Pass<Core<S, C>>)
        requires pass { IsPass self.now.lock.table.shared.table_id self.now.geometry self.now.cipher pass.old.seat }
        requires other { IsPass self.now.lock.table.shared.table_id self.now.geometry self.now.cipher other.seat }
        requires open { NothingOpen (view pass.old.seat) × NothingOpen (view other.seat) }
        ensures pass { IsPass self.now.lock.table.shared.table_id self.now.geometry self.now.cipher pass.new.seat }
        ensures open { NothingOpen (view pass.new.seat) }
        ensures same { ((view pass.new.seat).base ≡ (view pass.old.seat).base)
            × ((view pass.new.seat).number ≡ (view pass.old.seat).number)
            × ((view pass.new.seat).mine ≡ (view pass.old.seat).mine) }
        ensures share { Adds (view pass.old.seat) (view other.seat) (view pass.new.seat) }
        ensures under { (view pass.new.seat).under
            ≡ (view pass.old.seat).under ++ (view other.seat).number ∷ (view other.seat).under }
        ensures given { (view pass.new.seat).given ≡ max (view pass.old.seat).given (view other.seat).given }
        ensures longer { (view pass.new.seat).seen ≡ longer (view pass.old.seat).seen (view other.seat).seen }
        ensures seen { StartsWith (view pass.new.seat).seen (view pass.old.seat).seen
            × StartsWith (view pass.new.seat).seen (view other.seat).seen }
        ensures joined { entries caller_of (view other.seat).number (view pass.new.seat).seen ≡ (view other.seat).mine }
        ensures ended { SameUnder caller_of (view other.seat).under (view pass.new.seat).seen (view other.seat).seen }
        ensures settled { SameUnder caller_of (view pass.old.seat).under (view pass.new.seat).seen (view pass.old.seat).seen }
    {
        self.lock.join(pass, other);
    }
}
