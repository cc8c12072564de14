//! The end of an admitted write.
ghost use Rattle.std.specs.Prelude.{◌≡◌, ◌≢◌, ◌↔◌, ◌∷◌, [], List, IsTrue};
ghost use Rattle.hist_lock.specs.Known.{view};
ghost use Rattle.sector_model.specs.Array.{sectors_of};
ghost use Rattle.sector_model.specs.History.{Write};
ghost use Rattle.sector_model.specs.declared.entry.Entry.{Entry};
ghost use Rattle.io_queue.specs.Laws.Acts.{Ends};
ghost use Rattle.io_queue.specs.Laws.Opens.{IsOwn, Opens};
ghost use Rattle.io_queue.specs.Pass.{Call, IsPass, NothingOpen, shape, StandsFor};

use crate::volume::Volume;
use crate::write_acts::EndWrite;
use cipher_base::UnitCipher;
use hist_lock::Pass;
use io_core::{Close, Core};
use std::sync::Wait;
use std::thread::Threads;
use vc_outside::Store;

impl<S: Store, C: UnitCipher> Volume<S, C> {
    // Asks in one turn. While a fragment is waiting, the write goes on.
    fn end_once<R: Threads + Wait + Sync>(
        &self,
        rt: &R,
        pass: &mut Pass<Core<S, C>>,
        first: u64,
        count: u64,
    ) -> Close
        requires pass { IsPass self.now.lock.table.shared.table_id self.now.geometry self.now.cipher pass.old.seat }
        requires open { (w : Write) × IsOwn (shape self.now.geometry) (view pass.old.seat) first count w × Opens (view pass.old.seat) (w ∷ []) }
        ensures pass { IsPass self.now.lock.table.shared.table_id self.now.geometry self.now.cipher pass.new.seat }
        ensures call { (es : List Entry) × Call (view pass.old.seat) (view pass.new.seat) es × Ends (view pass.old.seat).number first count result es }
        ensures waits { (w : Write) → result ≡ Close.Waiting → Opens (view pass.old.seat) (w ∷ []) → Opens (view pass.new.seat) (w ∷ []) }
        ensures ended { result ≢ Close.Waiting → NothingOpen (view pass.new.seat) }
        ensures stands { StandsFor ⟦<S as Store>⟧ ⟦<C as UnitCipher>⟧ (view pass.new.seat) }
    {
        let mut act = EndWrite {
            geometry: self.geometry,
            caller: pass.number(),
            first,
            count,
            answer: Close::Waiting,
        };
        self.turn(rt, pass, &mut act);
        act.answer
    }

    // Asks until no fragment is waiting. It sleeps while helpers have some that they didn't deposit yet.
    pub(crate) fn end<R: Threads + Wait + Sync>(
        &self,
        rt: &R,
        pass: &mut Pass<Core<S, C>>,
        first: u64,
        count: u64,
    ) -> Close
        requires pass { IsPass self.now.lock.table.shared.table_id self.now.geometry self.now.cipher pass.old.seat }
        requires open { (w : Write) × IsOwn (shape self.now.geometry) (view pass.old.seat) first count w × Opens (view pass.old.seat) (w ∷ []) }
        ensures pass { IsPass self.now.lock.table.shared.table_id self.now.geometry self.now.cipher pass.new.seat }
        ensures call { (es : List Entry) × Call (view pass.old.seat) (view pass.new.seat) es × Ends (view pass.old.seat).number first count result es }
        ensures served { result ≢ Close.Waiting }
        ensures ended { NothingOpen (view pass.new.seat) }
        ensures stands { StandsFor ⟦<S as Store>⟧ ⟦<C as UnitCipher>⟧ (view pass.new.seat) }
    {
        for _ in rt.forever() {
            let seen = self.deposits.count();
            let answer = self.end_once(rt, pass, first, count);
            if !is_waiting(&answer) {
                self.ends.tell();
                return answer;
            }
            self.deposits.wait(rt, seen);
        }
        unreachable!()
    }
}

fn is_waiting(answer: &Close) -> bool
    ensures { IsTrue result ↔ answer.now ≡ Close.Waiting }
{
    matches!(answer, Close::Waiting)
}
