//! Tests of `serve`: `run_serve` over containers and clients in memory, none of whose calls fail.
//!
//! The crate has nothing but tests. They are apart from `vc_app` so that they can be proved beside other tests.
#![tactic(auto)]

#[cfg(test)]
mod hand;
#[cfg(test)]
mod protected;
#[cfg(test)]
mod read_back;
#[cfg(test)]
mod refused;
#[cfg(test)]
mod requests;
