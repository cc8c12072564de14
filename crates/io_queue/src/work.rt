//! What a write takes to have its fragments enciphered.
ghost use Rattle.std.specs.Prelude.{◌≡◌, ◌↔◌, ◌+◌, ◌/◌, ◌%◌, ◌^◌, ◌<◌, ◌≤◌, ℕ, length, IfSome, IsTrue};
ghost use Rattle.frag_pool.specs.Bench.{helpers};
ghost use Rattle.io_queue.specs.Laws.Works.{AreJobsOf, IsWorkOf};

use crate::deposit::{FRAGMENT, FRAGMENT_BYTES};
use frag_pool::{Bench, Job};
use sector_view::View;
use std::alloc::Global;
use std::cmp::min;

/// How the fragments of a write are enciphered.
#[derive(Drop)]
pub(crate) enum Work {
    /// One after the other by the writer: the data once more, and room for a fragment.
    Alone(Vec<u8>, Vec<u8>),
    /// Each by whoever gets its job.
    Shared(Vec<Job>),
}

impl Work {
    // Takes the memory to encipher a write of the caller, from the data unit `unit` on.
    pub(crate) fn new(
        alloc: Global,
        caller: u64,
        unit: u64,
        shared: bool,
        bytes: &[u8],
    ) -> Option<Work>
        requires whole { length bytes.now % 512 ≡ 0 }
        requires within { unit + length bytes.now / 512 ≤ 2 ^ 51 }
        ensures work { IfSome result (IsWorkOf caller unit bytes.now) }
    {
        if shared {
            Work::shared(alloc, caller, unit, bytes)
        } else {
            Work::alone(alloc, bytes)
        }
    }

    // For the writer alone.
    fn alone(alloc: Global, bytes: &[u8]) -> Option<Work>
        ensures work { IfSome result (λ w. (n u : ℕ) → IsWorkOf n u bytes.now w) }
    {
        let mut plain = Vec::with_capacity(alloc, bytes.len()).ok()?;
        plain.extend_from_slice(bytes).ok()?;
        let room = vec![in alloc; 0u8; min(bytes.len(), FRAGMENT_BYTES)].ok()?;
        Some(Work::Alone(plain, room))
    }

    // For the writer and helpers: a job for each fragment.
    fn shared(alloc: Global, caller: u64, unit: u64, bytes: &[u8]) -> Option<Work>
        requires whole { length bytes.now % 512 ≡ 0 }
        requires within { unit + length bytes.now / 512 ≤ 2 ^ 51 }
        ensures work { IfSome result (IsWorkOf caller unit bytes.now) }
    {
        let view = View::new(bytes);
        let units = bytes.len() as u64 / 512;
        let count = units.div_ceil(FRAGMENT);
        let mut jobs = Vec::with_capacity(alloc, count as usize).ok()?;
        for index in 0..count {
            let from = FRAGMENT * index;
            let part = view.part(from, min(FRAGMENT, units - from));
            let job = Job::new(alloc, caller, 0, index, unit + from, part).ok()?;
            jobs.push_reserved(job);
        }
        Some(Work::Shared(jobs))
    }
}

// Whether helpers share in a write of these bytes: one fragment is done sooner by the writer.
pub(crate) fn is_shared(bench: &Bench, bytes: &[u8]) -> bool
    ensures { IsTrue result ↔ (0 < helpers bench.now) × (262144 < length bytes.now) }
{
    bench.has_helpers() && bytes.len() > FRAGMENT_BYTES
}
