//! Admission of writes.
ghost use Rattle.std.specs.Prelude.{◌≡◌, ◌≢◌, [], ◌∷◌, All, IfErr, IfOk};
ghost use Rattle.hist_lock.specs.Known.{view};
ghost use Rattle.sector_model.specs.Array.{AreSectors, Fits, sectors_of};
ghost use Rattle.io_core.specs.Entries.{admit_entries, IsAnswered};
ghost use Rattle.io_core.specs.declared.prepared.Prepared.{Prepared};
ghost use Rattle.io_core.specs.Fragments.{IsWaiting};
ghost use Rattle.io_core.specs.State.{write_of};
ghost use Rattle.io_queue.specs.Laws.Opens.{Opens, WasAsked};
ghost use Rattle.io_queue.specs.Pass.{Call, IsPass, NothingOpen, shape, StandsFor};

use crate::volume::Volume;
use crate::write_acts::AskAdmission;
use cipher_base::UnitCipher;
use hist_lock::Pass;
use io_core::{Admit, Core, Prepared};
use std::sync::Wait;
use std::thread::Threads;
use vc_outside::Store;

impl<S: Store, C: UnitCipher> Volume<S, C> {
    // Asks in one turn.
    fn ask_once<R: Threads + Wait + Sync>(
        &self,
        rt: &R,
        pass: &mut Pass<Core<S, C>>,
        write: Prepared,
    ) -> Admit
        requires pass { IsPass self.now.lock.table.shared.table_id self.now.geometry self.now.cipher pass.old.seat }
        requires open { NothingOpen (view pass.old.seat) }
        requires name { (write.caller ≡ (view pass.old.seat).number) × (write.number ≡ 0) }
        requires whole { AreSectors (shape self.now.geometry) write.bytes.items }
        requires fits { Fits (shape self.now.geometry) write.first (sectors_of (shape self.now.geometry) write.bytes.items) }
        requires waiting { All IsWaiting write.parts.items }
        ensures pass { IsPass self.now.lock.table.shared.table_id self.now.geometry self.now.cipher pass.new.seat }
        ensures answered { IsAnswered write result }
        ensures call { Call (view pass.old.seat) (view pass.new.seat) (admit_entries (shape self.now.geometry) write result) }
        ensures refused { result ≢ Admit.In → NothingOpen (view pass.new.seat) }
        ensures admitted { result ≡ Admit.In → Opens (view pass.new.seat) (write_of write ∷ []) }
        ensures asked { WasAsked (view pass.old.seat) (view pass.new.seat) write.first
            (sectors_of (shape self.now.geometry) write.bytes.items) result }
        ensures stands { StandsFor ⟦<S as Store>⟧ ⟦<C as UnitCipher>⟧ (view pass.new.seat) }
    {
        let mut act = AskAdmission {
            geometry: self.geometry,
            state: Admit::Later(write),
        };
        self.turn(rt, pass, &mut act);
        act.state
    }

    // Asks until nothing pending overlaps the write and there is room for it.
    pub(crate) fn admit<R: Threads + Wait + Sync>(
        &self,
        rt: &R,
        pass: &mut Pass<Core<S, C>>,
        write: Prepared,
    ) -> Admit
        requires pass { IsPass self.now.lock.table.shared.table_id self.now.geometry self.now.cipher pass.old.seat }
        requires open { NothingOpen (view pass.old.seat) }
        requires name { (write.caller ≡ (view pass.old.seat).number) × (write.number ≡ 0) }
        requires whole { AreSectors (shape self.now.geometry) write.bytes.items }
        requires fits { Fits (shape self.now.geometry) write.first (sectors_of (shape self.now.geometry) write.bytes.items) }
        requires waiting { All IsWaiting write.parts.items }
        ensures pass { IsPass self.now.lock.table.shared.table_id self.now.geometry self.now.cipher pass.new.seat }
        ensures decided { (w : Prepared) → result ≢ Admit.Later w }
        ensures call { Call (view pass.old.seat) (view pass.new.seat) (admit_entries (shape self.now.geometry) write result) }
        ensures refused { result ≢ Admit.In → NothingOpen (view pass.new.seat) }
        ensures admitted { result ≡ Admit.In → Opens (view pass.new.seat) (write_of write ∷ []) }
        ensures asked { WasAsked (view pass.old.seat) (view pass.new.seat) write.first
            (sectors_of (shape self.now.geometry) write.bytes.items) result }
        ensures stands { StandsFor ⟦<S as Store>⟧ ⟦<C as UnitCipher>⟧ (view pass.new.seat) }
    {
        let mut asking = write;
        for _ in rt.forever() {
            let seen = self.ends.count();
            let answer = self.ask_once(rt, pass, asking);
            match again_of(answer) {
                Err(answer) => return answer,
                Ok(again) => {
                    self.ends.wait(rt, seen);
                    asking = again;
                }
            }
        }
        unreachable!()
    }
}

// The write that is to be asked again, or else the answer.
fn again_of(answer: Admit) -> Result<Prepared, Admit>
    ensures again { IfOk result (λ w. answer ≡ Admit.Later w) }
    ensures decided { IfErr result (λ a. (a ≡ answer) × ((w : Prepared) → answer ≢ Admit.Later w)) }
{
    match answer {
        Admit::Later(write) => Ok(write),
        Admit::In => Err(Admit::In),
        Admit::Denied(write) => Err(Admit::Denied(write)),
        Admit::Frozen(write) => Err(Admit::Frozen(write)),
    }
}
