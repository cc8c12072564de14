//! Reading.
ghost use Rattle.std.specs.Prelude.{◌≡◌, ◌<◌, ◌≤◌, ◌↔◌, ◌^◌, length, Err};
ghost use Rattle.hist_lock.specs.Known.{view};
ghost use Rattle.sector_model.specs.Array.{AreSectors, Fits, sectors_of};
ghost use Rattle.io_queue.specs.Calls.{IsReadResult, read_entries};
ghost use Rattle.io_queue.specs.Pass.{Call, IsPass, NothingOpen, shape, StandsFor};

use crate::error::IoError;
use crate::volume::Volume;
use cipher_base::UnitCipher;
use hist_lock::Pass;
use io_core::{Core, Fetch};
use sector_view::decipher_all;
use std::sync::Wait;
use std::thread::Threads;
use vc_outside::Store;

impl<S: Store, C: UnitCipher + Sync> Volume<S, C> {
    /// Reads the sectors from `first` on into `out`. After a Fault it has any bytes.
    pub fn read<R: Threads + Wait + Sync>(
        &self,
        rt: &R,
        pass: &mut Pass<Core<S, C>>,
        first: u64,
        out: &mut [u8],
    ) -> Result<(), IoError>
        requires pass { IsPass self.now.lock.table.shared.table_id self.now.geometry self.now.cipher pass.old.seat }
        requires open { NothingOpen (view pass.old.seat) }
        requires some { 0 < length out.old }
        requires whole { AreSectors (shape self.now.geometry) out.old }
        requires small { length out.old ≤ 2 ^ 25 }
        requires within { first < 2 ^ 55 }
        ensures pass { IsPass self.now.lock.table.shared.table_id self.now.geometry self.now.cipher pass.new.seat }
        ensures open { NothingOpen (view pass.new.seat) }
        ensures call { Call (view pass.old.seat) (view pass.new.seat)
            (read_entries (shape self.now.geometry) (view pass.old.seat).number first out.new result) }
        ensures result { IsReadResult result }
        ensures range { result ≡ Err IoError.Range
            ↔ ¬ Fits (shape self.now.geometry) first (sectors_of (shape self.now.geometry) out.old) }
        ensures length { length out.new ≡ length out.old }
        ensures stands { StandsFor ⟦<S as Store>⟧ ⟦<C as UnitCipher>⟧ (view pass.new.seat) }
    {
        let count = self.sectors_of(out);
        if !self.fits(first, count) {
            self.note_beyond(rt, pass, first, count);
            return Err(IoError::Range);
        }
        let unit = self.unit_of(first);
        match self.fetch(rt, pass, first, out) {
            Fetch::Got => {
                decipher_all(rt, &self.cipher, unit, out);
                Ok(())
            }
            Fetch::Failed(mark) => Err(IoError::Fault(mark)),
            Fetch::Later => unreachable!(),
        }
    }
}
