//! The bench of a client.
ghost use Rattle.std.specs.Prelude.{◌≡◌, ◌<◌, ◌≤◌, ◌↔◌, ◌++◌, ◌∷◌, [], ℕ, IsTrue, true, false, length};
ghost use Rattle.std.specs.Prelude.{IfOk, IfErr, IfSome, IfNone, OnOk};
ghost use Rattle.crossbeam_deque.specs.Handles.{worker_view, worker_flavor};
ghost use Rattle.crossbeam_deque.specs.Handles.{worker_capacity, worker_index};

use crate::helper::Thief;
use crate::job::Job;
use crate::moves::{Admits, Gets, Pushes};
use crate::view::{Law, View};
use crossbeam_deque::Worker;
use std::alloc::{AllocError, Global};

/// A client's own end of its deque. Contracts see which jobs were pushed and which of them it got
/// itself, how many helpers its pool has, and how many first pushes can't be refused.
#[derive(Drop)]
pub struct Bench {
    pub(crate) worker: Worker<Job, Global, View, Law>,
    pub(crate) helpers: u32,
    pub(crate) sure: u64,
    // The bench is empty: nothing was pushed since it was made or since a `take` returned None.
    pub(crate) clean: bool,
    ghost owns: { (worker_view worker).owns ≡ true },
    ghost alone: { helpers ≡ 0 → (worker_view worker).alone ≡ true },
    ghost first_first: { worker_flavor worker ≡ 0 },
    ghost promised: { sure ≤ worker_capacity worker },
    ghost counted: { worker_index worker ≤ length (worker_view worker).pushed },
}

impl Bench {
    ghost use Rattle.frag_pool.specs.Bench.{pushed, got, sure, helpers, is_empty};
    ghost use Rattle.frag_pool.specs.Bench.{stolen_from, SameBench};
    ghost use Rattle.frag_pool.specs.Deque.{AllGot, IsTaken};

    // An empty bench of a pool with `hands` helpers, whose first `promised` pushes can't be refused.
    pub(crate) fn new(alloc: Global, hands: u32, promised: u32) -> Result<Bench, AllocError>
        requires { 0 < promised }
        ensures clean { IfOk result (λ b. is_empty b ≡ true) }
        ensures pushed { IfOk result (λ b. pushed b ≡ []) }
        ensures got { IfOk result (λ b. got b ≡ []) }
        ensures sure { IfOk result (λ b. sure b ≡ promised) }
        ensures helpers { IfOk result (λ b. helpers b ≡ hands) }
    {
        let worker = Worker::fifo_as(alloc, promised as usize)?;
        Ok(Bench {
            worker,
            helpers: hands,
            sure: u64::from(promised),
            clean: true,
        })
    }

    // A helper's way to this bench.
    pub(crate) fn thief(&mut self) -> Result<Thief, AllocError>
        requires { 0 < helpers self.old }
        ensures new { IfOk result (λ t. stolen_from t ≡ []) }
        ensures same { SameBench self.old self.new }
        ensures clean { is_empty self.new ≡ is_empty self.old }
        ensures pushed { pushed self.new ≡ pushed self.old }
        ensures got { got self.new ≡ got self.old }
    {
        let pass = self.worker.another::<Admits>();
        let stealer = self.worker.stealer()?;
        Ok(Thief { stealer, pass })
    }

    /// Whether its pool has helpers.
    pub fn has_helpers(&self) -> bool
        ensures { IsTrue result ↔ 0 < helpers self.now }
    {
        self.helpers > 0
    }

    /// Puts a job last. If there is no room and no memory for more, the job comes back.
    pub fn push(&mut self, job: Job) -> Result<(), Job>
        ensures pushed { OnOk result (pushed self.new ≡ pushed self.old ++ job ∷ []) }
        ensures filled { OnOk result (is_empty self.new ≡ false) }
        ensures back { IfErr result (λ j. j ≡ job) }
        ensures refused { IfErr result (λ _. sure self.old ≤ length (pushed self.old)) }
        ensures unchanged { IfErr result (λ _. (pushed self.new ≡ pushed self.old)
            × (is_empty self.new ≡ is_empty self.old)) }
        ensures got { got self.new ≡ got self.old }
        ensures same { SameBench self.old self.new }
    {
        self.worker.push_as::<Pushes>(job)?;
        self.clean = false;
        Ok(())
    }

    /// The next job, unless a helper got it first. None if the deque was empty.
    pub fn take(&mut self) -> Option<Job>
        ensures got { IfSome result (λ job.
            IsTaken job (pushed self.old) (got self.old) (got self.new)) }
        ensures left { IfSome result (λ _. is_empty self.new ≡ is_empty self.old) }
        ensures none { IfNone result ((got self.new ≡ got self.old) × (is_empty self.new ≡ true)) }
        ensures empty { IfNone result (helpers self.old ≡ 0 → AllGot (pushed self.new) (got self.new)) }
        ensures pushed { pushed self.new ≡ pushed self.old }
        ensures same { SameBench self.old self.new }
    {
        let job = self.worker.pop_as::<Gets>();
        if job.is_none() {
            self.clean = true;
        }
        job
    }
}
