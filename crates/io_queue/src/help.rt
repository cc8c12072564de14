//! The jobs of a write, which the writer and helpers share.
//!
//! ```text
//!   writer   push all | tell news | take one, encipher, deposit it; again until none is left | sleep until helpers have
//!            deposited theirs
//!   helper   sleep until news | steal one, encipher, deposit it, tell that | again until none is left
//! ```
ghost use Rattle.std.specs.Prelude.{◌≡◌, [], false, true, IsTrue, List};
ghost use Rattle.frag_pool.specs.Bench.{is_empty, OneMore, SameBench, stolen};
ghost use Rattle.frag_pool.specs.declared.job.Job.{Job};
ghost use Rattle.hist_lock.specs.Known.{view};
ghost use Rattle.sector_model.specs.History.{Write};
ghost use Rattle.io_queue.specs.Laws.Opens.{Opens};
ghost use Rattle.io_queue.specs.Pass.{Call, IsPass, NothingOpen, StandsFor};

use crate::points::fragment_points;
use crate::volume::Volume;
use crate::write_acts::DepositPart;
use cipher_base::UnitCipher;
use frag_pool::{Bench, Helper, Job};
use hist_lock::Pass;
use io_core::Core;
use std::sync::Wait;
use std::thread::Threads;
use vc_outside::{Gate, Store};

impl<S: Store, C: UnitCipher> Volume<S, C> {
    // Enciphers the fragment of a job, and deposits it in one turn, under the name that the job has.
    pub(crate) fn deposit_job<R: Threads + Wait + Sync, G: Gate>(
        &self,
        rt: &R,
        pass: &mut Pass<Core<S, C>>,
        gate: &G,
        job: Job,
    )
        requires pass { IsPass self.now.lock.table.shared.table_id self.now.geometry self.now.cipher pass.old.seat }
        ensures pass { IsPass self.now.lock.table.shared.table_id self.now.geometry self.now.cipher pass.new.seat }
        ensures call { Call (view pass.old.seat) (view pass.new.seat) [] }
        ensures open { (ws : List Write) → Opens (view pass.old.seat) ws → Opens (view pass.new.seat) ws }
        ensures stands { StandsFor ⟦<S as Store>⟧ ⟦<C as UnitCipher>⟧ (view pass.new.seat) }
    {
        fragment_points(gate, job.caller, job.index);
        let piece = job.encipher(&self.cipher);
        let mut act = DepositPart {
            cipher: &self.cipher,
            caller: piece.caller,
            number: piece.number,
            index: piece.index,
            unit: piece.unit,
            plain: piece.plain.as_slice(),
            sealed: piece.cipher.as_slice(),
        };
        self.turn(rt, pass, &mut act);
    }

    // Pushes the jobs of an admitted write, and tells helpers. It does itself what the bench has no room for.
    pub(crate) fn push_all<R: Threads + Wait + Sync, G: Gate>(
        &self,
        rt: &R,
        pass: &mut Pass<Core<S, C>>,
        bench: &mut Bench,
        gate: &G,
        jobs: Vec<Job>,
    )
        requires pass { IsPass self.now.lock.table.shared.table_id self.now.geometry self.now.cipher pass.old.seat }
        ensures pass { IsPass self.now.lock.table.shared.table_id self.now.geometry self.now.cipher pass.new.seat }
        ensures call { Call (view pass.old.seat) (view pass.new.seat) [] }
        ensures open { (ws : List Write) → Opens (view pass.old.seat) ws → Opens (view pass.new.seat) ws }
        ensures bench { SameBench bench.old bench.new }
    {
        for job in jobs {
            if let Err(job) = bench.push(job) {
                self.deposit_job(rt, pass, gate, job);
            }
        }
        self.news.tell();
    }

    // Enciphers and deposits the jobs on the bench that no helper takes.
    pub(crate) fn take_all<R: Threads + Wait + Sync, G: Gate>(
        &self,
        rt: &R,
        pass: &mut Pass<Core<S, C>>,
        bench: &mut Bench,
        gate: &G,
    )
        requires pass { IsPass self.now.lock.table.shared.table_id self.now.geometry self.now.cipher pass.old.seat }
        ensures pass { IsPass self.now.lock.table.shared.table_id self.now.geometry self.now.cipher pass.new.seat }
        ensures call { Call (view pass.old.seat) (view pass.new.seat) [] }
        ensures open { (ws : List Write) → Opens (view pass.old.seat) ws → Opens (view pass.new.seat) ws }
        ensures empty { is_empty bench.new ≡ true }
        ensures bench { SameBench bench.old bench.new }
    {
        for _ in rt.forever() {
            match bench.take() {
                Some(job) => self.deposit_job(rt, pass, gate, job),
                None => return,
            }
        }
        unreachable!()
    }

    /// Gets a fragment from the bench of any client, enciphers it and deposits it as its client would, in one
    /// turn. False if each bench in turn had none. It adds no entry and takes no memory.
    pub fn help_one<R: Threads + Wait + Sync, G: Gate>(
        &self,
        rt: &R,
        pass: &mut Pass<Core<S, C>>,
        helper: &mut Helper,
        gate: &G,
    ) -> bool
        requires pass { IsPass self.now.lock.table.shared.table_id self.now.geometry self.now.cipher pass.old.seat }
        requires open { NothingOpen (view pass.old.seat) }
        ensures pass { IsPass self.now.lock.table.shared.table_id self.now.geometry self.now.cipher pass.new.seat }
        ensures open { NothingOpen (view pass.new.seat) }
        ensures call { Call (view pass.old.seat) (view pass.new.seat) [] }
        ensures helped { IsTrue result → (job : Job) × OneMore job (stolen helper.old) (stolen helper.new) }
        ensures none { result ≡ false → (stolen helper.new ≡ stolen helper.old) × (view pass.new.seat ≡ view pass.old.seat) }
        ensures stands { IsTrue result → StandsFor ⟦<S as Store>⟧ ⟦<C as UnitCipher>⟧ (view pass.new.seat) }
    {
        match helper.steal(rt) {
            Some(job) => {
                self.deposit_job(rt, pass, gate, job);
                self.deposits.tell();
                true
            }
            None => false,
        }
    }
}
