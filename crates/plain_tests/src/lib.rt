//! Tests of the commands that serve no client: `run_plain` over stores and sinks in memory, also over those that fail.
//!
//! The crate has nothing but tests. They are apart from `vc_app` so that they can be proved beside other tests.
#![tactic(auto)]

#[cfg(test)]
mod cat;
#[cfg(test)]
mod damage;
#[cfg(test)]
mod faults;
#[cfg(test)]
mod format;
#[cfg(test)]
mod hide;
#[cfg(test)]
mod stops;
