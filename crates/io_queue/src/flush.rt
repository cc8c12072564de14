//! Flushing.
ghost use Rattle.std.specs.Prelude.{◌≡◌, ◌∷◌, [], ℕ};
ghost use Rattle.hist_lock.specs.Known.{view};
ghost use Rattle.sector_model.specs.Plain.{entry};
ghost use Rattle.io_core.specs.Entries.{flush_event};
ghost use Rattle.io_queue.specs.Calls.{flush_entries, IsFlushResult};
ghost use Rattle.io_queue.specs.Pass.{Call, IsPass, NothingOpen, StandsFor};

use crate::acts::Flush;
use crate::error::IoError;
use crate::volume::Volume;
use cipher_base::UnitCipher;
use hist_lock::Pass;
use io_core::Core;
use sector_model::FaultMark;
use std::sync::Wait;
use std::thread::Threads;
use vc_outside::Store;

impl<S: Store, C: UnitCipher> Volume<S, C> {
    /// Syncs the store. If nothing is pending then, a crash leaves what was written before.
    pub fn flush<R: Threads + Wait + Sync>(
        &self,
        rt: &R,
        pass: &mut Pass<Core<S, C>>,
    ) -> Result<(), IoError>
        requires pass { IsPass self.now.lock.table.shared.table_id self.now.geometry self.now.cipher pass.old.seat }
        requires open { NothingOpen (view pass.old.seat) }
        ensures pass { IsPass self.now.lock.table.shared.table_id self.now.geometry self.now.cipher pass.new.seat }
        ensures open { NothingOpen (view pass.new.seat) }
        ensures call { Call (view pass.old.seat) (view pass.new.seat) (flush_entries (view pass.old.seat).number result) }
        ensures result { IsFlushResult result }
        ensures stands { StandsFor ⟦<S as Store>⟧ ⟦<C as UnitCipher>⟧ (view pass.new.seat) }
    {
        let mut act = Flush { answer: Ok(()) };
        self.turn(rt, pass, &mut act);
        result_of(act.answer)
    }
}

fn result_of(answer: Result<(), FaultMark>) -> Result<(), IoError>
    ensures result { IsFlushResult result }
    ensures entries { (n : ℕ) → flush_entries n result ≡ entry n 0 (flush_event answer) ∷ [] }
{
    match answer {
        Ok(()) => Ok(()),
        Err(mark) => Err(IoError::Fault(mark)),
    }
}
