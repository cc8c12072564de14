//! The drill: a container in memory, three clients of it that are served side by side, and a summary of what they did.
//!
//! ```text
//! number -> container -> open -> serve three clients, by two helpers -> close -> digest of the plain sectors
//!        -> the clients' bytes ------^
//! ```
//!
//! The clients write sectors of their own, so the volume's contents at the end don't depend on which of them is
//! served first, and the summary is a function of the number: `IsSummary` in `specs/Summary.antt`. Nothing is read or
//! written outside. `docs/FORMAT.md`, "The drill", has the container, the requests and the summary.
#![tactic(auto)]

pub use drill_streams::NoMemory;
pub use summary::{Summary, drill};

mod clients;
mod container;
mod digest;
mod ended;
mod served;
pub mod summary;
#[cfg(test)]
mod tests;
