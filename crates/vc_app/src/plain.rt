//! The top call of all commands that serve no client.
ghost use Rattle.std.specs.Prelude.{◌≡◌, map, string_bytes};
ghost use Rattle.cmd_words.specs.Meaning.{meaning};
ghost use Rattle.cmd_words.specs.Ranges.{IsInRange};
ghost use Rattle.vc_app.specs.Commands.{promise_of, promise_of_line};
ghost use Rattle.vc_app.specs.Promise.{IsComplete, Kept, seen};

use crate::access::Access;
use crate::commands::cat::{Cat, run_cat};
use crate::commands::expand::{Expand, run_expand};
use crate::commands::format::run_format;
use crate::commands::hide::run_hide;
use crate::commands::info::run_info;
use crate::commands::passwd::{Passwd, run_passwd};
use crate::commands::restore::run_restore;
use crate::status::Status;
use cmd_words::{Command, read_words};
use header_try::Kind;
use std::alloc::Global;
use std::thread::Threads;
use vc_outside::{Sink, Store};
use volume_format::{FormatSpec, HiddenSpec};

/// Carries out the command that the arguments are, over a container and an output, and gives both back. So far
/// the commands are `format`, `hide`, `info`, `cat`, `passwd`, `restore` and `expand`.
///
/// The call keeps the promise of the command. Arguments that are no command of this call have a promise too:
/// Usage, with nothing touched.
pub fn run_plain<R: Threads + Sync, D: Store, O: Sink>(
    rt: &R,
    alloc: Global,
    words: &[String],
    disk: D,
    out: O,
) -> (Status, D, O)
    ensures kept { Kept (promise_of (map string_bytes words.now)) result.0
        (seen ⟦<D as Store>⟧ ⟦<O as Sink>⟧ disk out) (seen ⟦<D as Store>⟧ ⟦<O as Sink>⟧ result.1 result.2) }
    ensures complete { IsComplete (promise_of (map string_bytes words.now)) result.0
        (seen ⟦<D as Store>⟧ ⟦<O as Sink>⟧ disk out) (seen ⟦<D as Store>⟧ ⟦<O as Sink>⟧ result.1 result.2) }
{
    let mut disk = disk;
    let mut out = out;
    match read_words(alloc, words) {
        Ok(command) => {
            let status = carry_out(rt, alloc, &mut disk, &mut out, command);
            (status, disk, out)
        }
        Err(error) => (Status::from(error), disk, out),
    }
}

// Carries out a command.
fn carry_out<R: Threads + Sync, D: Store, O: Sink>(
    rt: &R,
    alloc: Global,
    disk: &mut D,
    out: &mut O,
    command: Command,
) -> Status
    requires { IsInRange (meaning command) }
    ensures { Kept (promise_of_line (meaning command)) result
        (seen ⟦<D as Store>⟧ ⟦<O as Sink>⟧ disk.old out.old) (seen ⟦<D as Store>⟧ ⟦<O as Sink>⟧ disk.new out.new) }
{
    match command {
        Command::Format {
            path: _path,
            size,
            password,
            random,
            pim,
            prf,
            algorithm,
            sector,
        } => {
            let spec = FormatSpec {
                password,
                pim,
                prf,
                algorithm,
                size,
                sector,
            };
            Status::from(run_format(disk, out, &spec, random))
        }
        Command::Hide {
            path: _path,
            size,
            password,
            random,
            pim,
            prf,
            algorithm,
            sector,
        } => {
            let spec = HiddenSpec {
                password,
                pim,
                prf,
                algorithm,
                size,
                sector,
            };
            Status::from(run_hide(disk, out, &spec, random))
        }
        Command::Info {
            path: _path,
            password,
            pim,
            kind,
        } => {
            let access = Access {
                password,
                pim,
                kind,
            };
            Status::from(run_info(rt, alloc, disk, out, &access))
        }
        Command::Cat {
            path: _path,
            first,
            count,
            password,
            pim,
            kind,
        } => {
            let access = Access {
                password,
                pim,
                kind,
            };
            let command = Cat {
                first,
                count,
                access,
            };
            Status::from(run_cat(rt, alloc, disk, out, &command))
        }
        Command::Passwd {
            path: _path,
            password,
            new_password,
            random,
            pim,
            new_pim,
            new_prf,
            kind,
        } => {
            let access = Access {
                password,
                pim,
                kind,
            };
            let command = Passwd {
                access,
                password: new_password,
                pim: new_pim,
                prf: new_prf,
            };
            Status::from(run_passwd(rt, alloc, disk, out, &command, random))
        }
        Command::Restore {
            path: _path,
            password,
            random,
            pim,
            kind,
        } => {
            let access = Access {
                password,
                pim,
                kind,
            };
            Status::from(run_restore(rt, alloc, disk, out, &access, random))
        }
        Command::Expand {
            path: _path,
            size,
            password,
            random,
            pim,
            no_hidden: _no_hidden,
        } => {
            let access = Access {
                password,
                pim,
                kind: Kind::StandardOnly,
            };
            let command = Expand { access, size };
            Status::from(run_expand(rt, alloc, disk, out, &command, random))
        }
        _ => Status::Usage,
    }
}
