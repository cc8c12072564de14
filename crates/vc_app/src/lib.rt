//! The top calls: from the arguments of a command line, a container and an output to a status.
//!
//! `run_plain` is what the program does, over any store and any sink. It carries out seven commands:
//! `format` makes a container, `hide` gives it a hidden volume, `info` shows a header, `cat` writes sectors of
//! the plain volume, `passwd` gives a volume another password, `restore` writes a header from its backup, and
//! `expand` makes a container longer.
//! Everything streams: a call holds one buffer of 64 KiB, or for `cat` two of up to 1 MiB, whatever the container's size.
//!
//! `run_serve` serves clients over a container: it opens the volume, also with a hidden one that is protected, has
//! `vol_server` serve the clients, syncs the container and writes a line for each client. It also runs a drill, which
//! touches neither container nor clients, and writes its summary. `specs/Serve.antt` and `specs/Drill.antt` have its
//! promises.
//!
//! What a command promises is a record in its own file of specs/, and what a promise means is said once, in
//! specs/Promise.antt. Each command returns a result of its own; `status` alone turns it into a status.
//! `docs/DEVELOPING.md`, "Building a command", has the steps.
#![tactic(auto)]

pub use plain::run_plain;
pub use serve::{ServeEnd, run_serve};
pub use status::Status;

mod access;
mod commands;
mod counts;
mod output;
pub mod plain;
pub mod serve;
pub mod status;
