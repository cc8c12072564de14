//! Fetching sectors into a buffer, as they are stored.
ghost use Rattle.std.specs.Prelude.{◌≡◌, ◌≢◌, ◌<◌, ◌↔◌, IsTrue, length};
ghost use Rattle.hist_lock.specs.Known.{view};
ghost use Rattle.sector_model.specs.Array.{AreSectors, Fits, sectors_of};
ghost use Rattle.io_queue.specs.Laws.Acts.{fetched};
ghost use Rattle.io_queue.specs.Pass.{Call, IsPass, NothingOpen, shape, StandsFor};

use crate::acts::FetchInto;
use crate::volume::Volume;
use cipher_base::UnitCipher;
use hist_lock::Pass;
use io_core::{Core, Fetch};
use std::sync::Wait;
use std::thread::Threads;
use vc_outside::Store;

impl<S: Store, C: UnitCipher> Volume<S, C> {
    // Asks in one turn.
    fn fetch_once<R: Threads + Wait + Sync>(
        &self,
        rt: &R,
        pass: &mut Pass<Core<S, C>>,
        first: u64,
        out: &mut [u8],
    ) -> Fetch
        requires pass { IsPass self.now.lock.table.shared.table_id self.now.geometry self.now.cipher pass.old.seat }
        requires open { NothingOpen (view pass.old.seat) }
        requires some { 0 < length out.old }
        requires whole { AreSectors (shape self.now.geometry) out.old }
        requires fits { Fits (shape self.now.geometry) first (sectors_of (shape self.now.geometry) out.old) }
        ensures pass { IsPass self.now.lock.table.shared.table_id self.now.geometry self.now.cipher pass.new.seat }
        ensures open { NothingOpen (view pass.new.seat) }
        ensures call { Call (view pass.old.seat) (view pass.new.seat) (fetched ⟦<C as UnitCipher>⟧ self.now.cipher
            self.now.geometry (view pass.old.seat).number first out.new result) }
        ensures length { length out.new ≡ length out.old }
        ensures stands { StandsFor ⟦<S as Store>⟧ ⟦<C as UnitCipher>⟧ (view pass.new.seat) }
    {
        let mut act = FetchInto {
            geometry: self.geometry,
            cipher: &self.cipher,
            first,
            out,
            answer: Fetch::Later,
        };
        self.turn(rt, pass, &mut act);
        act.answer
    }

    // Asks until no pending write overlaps the sectors.
    pub(crate) fn fetch<R: Threads + Wait + Sync>(
        &self,
        rt: &R,
        pass: &mut Pass<Core<S, C>>,
        first: u64,
        out: &mut [u8],
    ) -> Fetch
        requires pass { IsPass self.now.lock.table.shared.table_id self.now.geometry self.now.cipher pass.old.seat }
        requires open { NothingOpen (view pass.old.seat) }
        requires some { 0 < length out.old }
        requires whole { AreSectors (shape self.now.geometry) out.old }
        requires fits { Fits (shape self.now.geometry) first (sectors_of (shape self.now.geometry) out.old) }
        ensures pass { IsPass self.now.lock.table.shared.table_id self.now.geometry self.now.cipher pass.new.seat }
        ensures open { NothingOpen (view pass.new.seat) }
        ensures call { Call (view pass.old.seat) (view pass.new.seat) (fetched ⟦<C as UnitCipher>⟧ self.now.cipher
            self.now.geometry (view pass.old.seat).number first out.new result) }
        ensures served { result ≢ Fetch.Later }
        ensures length { length out.new ≡ length out.old }
        ensures stands { StandsFor ⟦<S as Store>⟧ ⟦<C as UnitCipher>⟧ (view pass.new.seat) }
    {
        for _ in rt.forever() {
            let seen = self.ends.count();
            let answer = self.fetch_once(rt, pass, first, out);
            if !is_later(answer) {
                return answer;
            }
            self.ends.wait(rt, seen);
        }
        unreachable!()
    }
}

fn is_later(answer: Fetch) -> bool
    ensures { IsTrue result ↔ answer ≡ Fetch.Later }
{
    matches!(answer, Fetch::Later)
}
