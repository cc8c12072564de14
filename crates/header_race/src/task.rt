//! What a worker gets and what it leaves.
use crate::entrant::{Entrant, Numbers};
use algorithm_names::Algorithm;
use race_word::Runner;
use vc_header::Fields;

/// How a derivation went.
#[derive(Clone, Copy)]
pub(crate) enum Outcome {
    /// It hasn't been run.
    NotRun,
    /// It ended, and none of its candidates is valid.
    NoneValid,
    /// It ended, and this is its least valid candidate.
    Valid(Algorithm, Fields),
    /// It stopped, since it was told this valid number, which is below all its own.
    Stopped(u64),
}

/// One derivation.
#[derive(Drop)]
pub(crate) struct Task {
    /// The number of the derivation, counted from 0 in the order in which opening tries them.
    pub(crate) number: u32,
    pub(crate) entrant: Entrant,
    pub(crate) runner: Runner<Numbers>,
    pub(crate) outcome: Outcome,
}
