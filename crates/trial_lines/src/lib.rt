//! What the tests of the commands share: command lines, and what they are run over.
//!
//! Only tests call it. A test takes a command line of `lines` or one of its own, and runs it: by `runs` over a store
//! and a sink, of which `misses` has some that fail now and then, or by `serving` over clients in memory, which also
//! says what each client has to get. No call has a clause: the promises are those of `run_plain` and `run_serve`.
#![tactic(auto)]

pub use lines::{
    CAT, CAT_HIDDEN, CAT_OUTER, FORMAT, HIDE, INFO, MIB, SERVE, SMALL_TEXT, arguments_of, column,
    number,
};
pub use misses::{Miss, MissingStore, SlowSink, Way, miss_named, way_named};
pub use runs::{container, run, run_into, shown};
pub use serving::{
    DISCONNECT, Ended, Link, NEVER, Turn, WHOLE, client, payload_byte, replies_to, sent_by, serve,
};

pub mod lines;
pub mod misses;
pub mod runs;
pub mod serving;
