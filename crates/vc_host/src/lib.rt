//! The real outside: containers, input and output in files and streams.
//!
//! What a file or a stream holds is the system's, and no contract can say it. So contracts know the count
//! of faults of these types and the length of a `FileStore`, and nothing of their contents, nor of what a
//! crash may leave. Each is a few lines over std. The file of a `FileStore` is locked while it is open, so
//! that no other store of this kind writes to it. A system call that a signal interrupted is made again.
//! Offsets and lengths are in bytes.
#![tactic(auto)]

pub use file_sink::FileSink;
pub use file_source::FileSource;
pub use file_store::FileStore;
pub use obstacle::{Obstacle, Purpose, Trouble};
pub use stream_sink::StreamSink;
pub use stream_source::StreamSource;

mod file_name;
pub mod file_sink;
pub mod file_source;
pub mod file_store;
pub mod obstacle;
mod progress;
pub mod stream_sink;
pub mod stream_source;
#[cfg(test)]
mod tests;
