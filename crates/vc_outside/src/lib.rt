//! The outside: what reads and writes a container, and what takes the output.
//!
//! Everything above is generic over the traits `Store` and `Sink`, and proved once for all of them.
//! Each has a count of faults, which a failed call raises: so a result that blames the outside has its
//! cause in a clause. A store may also model what a crash at any moment may leave.
//!
//! All types here are over memory. `SureStore` and `SureSink` never fail. `MemStore` and `MemSink` fail
//! as planned, and `MemStore` models its crashes and makes images that they leave: with them tests try
//! what a caller does at each fault. The types over real files are those of `vc_host`.
//! Offsets and lengths are in bytes.
#![tactic(auto)]

pub use gate::{Gate, HoldGate, NoGate};
pub use mem_sink::MemSink;
pub use mem_source::MemSource;
pub use mem_store::{MemStore, NoMemory};
pub use sink::{OutError, Sink, SureSink};
pub use source::{Client, Source, SureSource};
pub use store::{Failed, Store, SureStore};

pub mod gate;
mod medium;
pub mod mem_sink;
pub mod mem_source;
pub mod mem_store;
mod planned;
mod record;
mod replay;
pub mod sink;
pub mod source;
pub mod store;
