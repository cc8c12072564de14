//! Writing.
ghost use Rattle.std.specs.Prelude.{◌≡◌, ◌≢◌, ◌<◌, ◌≤◌, ◌↔◌, ◌+◌, ◌-◌, ◌/◌, ◌%◌, ◌^◌, length, All, Err, IfSome, List, true};
ghost use Rattle.frag_pool.specs.Bench.{is_empty, SameBench};
ghost use Rattle.hist_lock.specs.Known.{view};
ghost use Rattle.io_core.specs.Fragments.{IsWaiting};
ghost use Rattle.sector_model.specs.Array.{AreSectors, Fits, sectors_of};
ghost use Rattle.sector_model.specs.declared.entry.Entry.{Entry};
ghost use Rattle.io_queue.specs.Calls.{Admitted, IsRefused, WriteAdds};
ghost use Rattle.io_queue.specs.Laws.Works.{IsWorkOf};
ghost use Rattle.io_queue.specs.Pass.{Call, IsPass, NothingOpen, shape, StandsFor};

use crate::error::IoError;
use crate::points::end_point;
use crate::volume::Volume;
use crate::work::{Work, is_shared};
use cipher_base::UnitCipher;
use frag_pool::Bench;
use hist_lock::Pass;
use io_core::{Admit, Close, Core, Prepared};
use std::alloc::Global;
use std::sync::Wait;
use std::thread::Threads;
use vc_outside::{Gate, Store};

// What a write takes before it is admitted: its place among the pending writes, and what its fragments are
// enciphered in after the admission.
#[derive(Drop)]
struct Memory {
    write: Prepared,
    work: Work,
}

impl<S: Store, C: UnitCipher> Volume<S, C> {
    /// Writes the data from the sector `first` on. After Fault its fragments that failed have any bytes. It
    /// takes all its memory before the write is admitted, and passes the points of `points` at the gate.
    pub fn write<R: Threads + Wait + Sync, G: Gate>(
        &self,
        rt: &R,
        alloc: Global,
        pass: &mut Pass<Core<S, C>>,
        bench: &mut Bench,
        gate: &G,
        first: u64,
        bytes: Vec<u8>,
    ) -> Result<(), IoError>
        requires pass { IsPass self.now.lock.table.shared.table_id self.now.geometry self.now.cipher pass.old.seat }
        requires open { NothingOpen (view pass.old.seat) }
        requires empty { is_empty bench.old ≡ true }
        requires some { 0 < length bytes.items }
        requires whole { AreSectors (shape self.now.geometry) bytes.items }
        requires small { length bytes.items ≤ 2 ^ 25 }
        requires within { first < 2 ^ 55 }
        ensures pass { IsPass self.now.lock.table.shared.table_id self.now.geometry self.now.cipher pass.new.seat }
        ensures open { NothingOpen (view pass.new.seat) }
        ensures empty { is_empty bench.new ≡ true }
        ensures bench { SameBench bench.old bench.new }
        ensures unused { IsRefused result → bench.new ≡ bench.old }
        ensures call { (es : List Entry) × Call (view pass.old.seat) (view pass.new.seat) es
            × WriteAdds (shape self.now.geometry) (view pass.old.seat).number first bytes.items result es }
        ensures range { result ≡ Err IoError.Range
            ↔ ¬ Fits (shape self.now.geometry) first (sectors_of (shape self.now.geometry) bytes.items) }
        ensures judged { result ≢ Err IoError.Range → result ≢ Err IoError.NoMemory
            → Admitted (view pass.old.seat) (view pass.new.seat) first (sectors_of (shape self.now.geometry) bytes.items) result }
        ensures no_memory { result ≡ Err IoError.NoMemory → view pass.new.seat ≡ view pass.old.seat }
        ensures stands { result ≢ Err IoError.NoMemory → StandsFor ⟦<S as Store>⟧ ⟦<C as UnitCipher>⟧ (view pass.new.seat) }
    {
        let count = self.sectors_of(&bytes);
        if !self.fits(first, count) {
            self.note_beyond(rt, pass, first, count);
            return Err(IoError::Range);
        }
        let unit = self.unit_of(first);
        let shared = is_shared(bench, &bytes);
        let Some(memory) = prepare(alloc, pass.number(), first, unit, shared, bytes) else {
            return Err(IoError::NoMemory);
        };
        let Memory { write, work } = memory;
        match self.admit(rt, pass, write) {
            Admit::Denied(_) => Err(IoError::Denied),
            Admit::Frozen(_) => Err(IoError::Frozen),
            Admit::Later(_) => unreachable!(),
            Admit::In => {
                self.deposit_work(rt, pass, bench, gate, unit, work);
                let end = self.end(rt, pass, first, count);
                end_point(gate, pass.number());
                match end {
                    Close::Done(_) => Ok(()),
                    Close::Lost(mark) => Err(IoError::Fault(mark)),
                    Close::Waiting => unreachable!(),
                }
            }
        }
    }
}

// Takes the memory for a write, whose first data unit is `unit`.
fn prepare(
    alloc: Global,
    caller: u64,
    first: u64,
    unit: u64,
    shared: bool,
    bytes: Vec<u8>,
) -> Option<Memory>
    requires some { 0 < length bytes.items }
    requires whole { length bytes.items % 512 ≡ 0 }
    requires small { length bytes.items ≤ 2 ^ 25 }
    requires within { first ≤ 2 ^ 55 - 65536 }
    requires units { unit + length bytes.items / 512 ≤ 2 ^ 51 }
    ensures write { IfSome result (λ m. (m.write.caller ≡ caller) × (m.write.number ≡ 0) × (m.write.first ≡ first)
        × (m.write.bytes ≡ bytes) × All IsWaiting m.write.parts.items) }
    ensures work { IfSome result (λ m. IsWorkOf caller unit bytes.items m.work) }
{
    let work = Work::new(alloc, caller, unit, shared, &bytes)?;
    let write = Prepared::new(alloc, caller, 0, first, bytes).ok()?;
    Some(Memory { write, work })
}
