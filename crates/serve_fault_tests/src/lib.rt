//! Tests of `serve` if a call of a client or of the container fails: `run_serve` over both in memory.
//!
//! The crate has nothing but tests. They are apart from `vc_app` so that they can be proved beside other tests.
#![tactic(auto)]

#[cfg(test)]
mod faults;
