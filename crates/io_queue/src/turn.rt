//! A turn of the lock, as what it adds to a pass.
ghost use Rattle.std.specs.Prelude.{◌≡◌, ◌++◌, List, Some};
ghost use Rattle.hist_lock.specs.History.{StartsWith, entries};
ghost use Rattle.hist_lock.specs.Known.{view};
ghost use Rattle.sector_model.specs.History.{open_from, Write};
ghost use Rattle.sector_model.specs.declared.entry.Entry.{Entry};
ghost use Rattle.io_core.specs.State.{State};
ghost use Rattle.io_queue.specs.Laws.Opens.{Opens};
ghost use Rattle.io_queue.specs.Pass.{Call, caller_of, IsPass, StandsFor};

use crate::volume::Volume;
use cipher_base::UnitCipher;
use hist_lock::{Act, Pass};
use io_core::Core;
use std::sync::Wait;
use std::thread::Threads;
use vc_outside::Store;

impl<S: Store, C: UnitCipher> Volume<S, C> {
    // Acts in one turn.
    pub(crate) fn turn<A: Act<Core<S, C>>, R: Threads + Wait + Sync>(
        &self,
        rt: &R,
        pass: &mut Pass<Core<S, C>>,
        act: &mut A,
    )
        requires pass { IsPass self.now.lock.table.shared.table_id self.now.geometry self.now.cipher pass.old.seat }
        requires may { (base : State S C) (log : List Entry) → (view pass.old.seat).base ≡ Some base
            → StartsWith log (view pass.old.seat).seen
            → entries caller_of (view pass.old.seat).number log ≡ (view pass.old.seat).mine
            → A.may act.old base log }
        ensures pass { IsPass self.now.lock.table.shared.table_id self.now.geometry self.now.cipher pass.new.seat }
        ensures acted { (es : List Entry) × (past : List Entry) × A.allows act.old act.new (view pass.old.seat).number es
            × Call (view pass.old.seat) (view pass.new.seat) es
            × StartsWith past (view pass.old.seat).seen
            × ((view pass.new.seat).seen ≡ past ++ es)
            × ((ws : List Write) → Opens (view pass.old.seat) ws → Opens (view pass.new.seat) (open_from ws es)) }
        ensures stands { StandsFor ⟦<S as Store>⟧ ⟦<C as UnitCipher>⟧ (view pass.new.seat) }
    {
        self.lock.turn(rt, pass, act);
    }
}
