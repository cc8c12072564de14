//! Requests that pass the volume's end.
ghost use Rattle.std.specs.Prelude.{◌≡◌, [], ◌∷◌};
ghost use Rattle.hist_lock.specs.Known.{view};
ghost use Rattle.sector_model.specs.Array.{Fits};
ghost use Rattle.sector_model.specs.Plain.{entry};
ghost use Rattle.sector_model.specs.declared.entry.Event.TheVariants.{Beyond};
ghost use Rattle.io_queue.specs.Pass.{Call, IsPass, NothingOpen, shape, StandsFor};

use crate::acts::PassEnd;
use crate::volume::Volume;
use cipher_base::UnitCipher;
use hist_lock::Pass;
use io_core::Core;
use std::sync::Wait;
use std::thread::Threads;
use vc_outside::Store;

impl<S: Store, C: UnitCipher> Volume<S, C> {
    // Adds to the history that a request of these sectors was made.
    pub(crate) fn note_beyond<R: Threads + Wait + Sync>(
        &self,
        rt: &R,
        pass: &mut Pass<Core<S, C>>,
        first: u64,
        count: u64,
    )
        requires pass { IsPass self.now.lock.table.shared.table_id self.now.geometry self.now.cipher pass.old.seat }
        requires open { NothingOpen (view pass.old.seat) }
        requires beyond { ¬ Fits (shape self.now.geometry) first count }
        ensures pass { IsPass self.now.lock.table.shared.table_id self.now.geometry self.now.cipher pass.new.seat }
        ensures open { NothingOpen (view pass.new.seat) }
        ensures call { Call (view pass.old.seat) (view pass.new.seat)
            (entry (view pass.old.seat).number 0 (Beyond first count) ∷ []) }
        ensures stands { StandsFor ⟦<S as Store>⟧ ⟦<C as UnitCipher>⟧ (view pass.new.seat) }
    {
        let mut act = PassEnd {
            sectors: self.geometry.sectors,
            first,
            count,
        };
        self.turn(rt, pass, &mut act);
    }
}
