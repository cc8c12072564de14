//! Tests that `serve` and `drill` work side by side: `run_serve` over gates that hold one piece of work until another has
//! gone on. And what else `drill` does.
//!
//! The crate has nothing but tests. They are apart from `vc_app` so that they can be proved beside other tests.
#![tactic(auto)]

#[cfg(test)]
mod drills;
#[cfg(test)]
mod gates;
