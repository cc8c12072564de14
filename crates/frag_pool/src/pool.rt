//! The pool: a bench for each client, and a helper for each helping thread.
ghost use Rattle.std.specs.Prelude.{◌≡◌, ◌<◌, ◌≤◌, [], true, length, vec_len, All, IfOk};
ghost use Rattle.frag_pool.specs.Bench.{IsNewBench, IsNewHelper};

use crate::bench::Bench;
use crate::helper::Helper;
use std::alloc::{AllocError, Global};

/// How many first pushes onto a bench can't be refused: the fragments of the longest write.
pub const SURE: u32 = 128;

/// Makes benches and helpers.
pub struct Pool;

impl Pool {
    /// Empty benches, and helpers which steal from each of them. No other call of this crate than this,
    /// `Job::new` and `Bench::push` takes memory.
    pub fn new(
        alloc: Global,
        benches: u32,
        helpers: u32,
    ) -> Result<(Vec<Bench>, Vec<Helper>), AllocError>
        requires some { 0 < benches }
        requires at_most { benches ≤ 16 }
        requires help { helpers ≤ 8 }
        ensures benches { IfOk result (λ r. vec_len r.0 ≡ benches) }
        ensures helpers { IfOk result (λ r. vec_len r.1 ≡ helpers) }
        ensures new_benches { IfOk result (λ r. All (IsNewBench helpers) r.0.items) }
        ensures new_helpers { IfOk result (λ r. All (IsNewHelper benches) r.1.items) }
    {
        let mut all = Vec::with_capacity(alloc, benches as usize)?;
        for _ in 0..benches {
            let bench = Bench::new(alloc, helpers, SURE)?;
            all.push_reserved(bench);
        }
        let mut help = Vec::with_capacity(alloc, helpers as usize)?;
        for _ in 0..helpers {
            let helper = Helper::new(alloc, &mut all)?;
            help.push_reserved(helper);
        }
        Ok((all, help))
    }
}
