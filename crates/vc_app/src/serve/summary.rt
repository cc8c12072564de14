//! `drill`: the summary of a drill, as lines.
ghost use Rattle.std.specs.Prelude.{◌≡◌, ◌<◌, ◌^◌, IfOk, IfSome, string_bytes};
ghost use Rattle.vc_base.specs.Faults.{HasCause};
ghost use Rattle.cmd_words.specs.Meaning.{meaning};
ghost use Rattle.cmd_words.specs.Ranges.{IsInRange};
ghost use Rattle.vc_outside.specs.Told.{Grows, GrowsByFront};
ghost use Rattle.vc_app.specs.Drill.{drill_lines, IsOfDrill, number_of, summary_lines};

use crate::counts::WorkError;
use crate::output::{push_line, write_all};
use crate::status::Status;
use cmd_words::Command;
use drill_work::{Summary, drill};
use std::alloc::{AllocError, Global};
use std::sync::Wait;
use std::thread::Threads;
use vc_outside::{Gate, Sink};

/// How many clients a drill has, and how many requests they send in all.
const CLIENTS: u32 = 3;

const REQUESTS: u32 = 36;

// The number of the drill that a command runs, if it is a `drill`.
pub(crate) fn drill_number(command: &Command) -> Option<u64>
    requires { IsInRange (meaning command.now) }
    ensures number { result ≡ number_of (meaning command.now) }
    ensures few { IfSome result (λ n. n < 2 ^ 32) }
{
    match command {
        Command::Drill { n } => Some(*n),
        _ => None,
    }
}

// Runs the drill of n and writes its summary. Returns the status of the call.
pub(crate) fn write_drill<R: Threads + Wait + Sync, P: Sink, G: Gate>(
    rt: &R,
    alloc: Global,
    n: u64,
    out: &mut P,
    gate: &G,
) -> Status
    requires { n < 2 ^ 32 }
    ensures status { IsOfDrill result }
    ensures printed { GrowsByFront (P.contents out.old) (P.contents out.new) (drill_lines n) }
    ensures all_printed { result ≡ Status.Done → Grows (P.contents out.old) (P.contents out.new) (drill_lines n) }
    ensures out_fault { HasCause (P.faults out.old) (P.faults out.new) (result ≡ Status.OutFault) }
{
    match drill(rt, alloc, n, gate) {
        Ok(summary) => write_summary(alloc, n, &summary, out),
        Err(_) => Status::NoMemory,
    }
}

// Writes the lines of a summary.
fn write_summary<P: Sink>(alloc: Global, n: u64, summary: &Summary, out: &mut P) -> Status
    ensures status { IsOfDrill result }
    ensures printed { GrowsByFront (P.contents out.old) (P.contents out.new) (summary_lines n summary.now) }
    ensures all_printed { result ≡ Status.Done
        → Grows (P.contents out.old) (P.contents out.new) (summary_lines n summary.now) }
    ensures out_fault { HasCause (P.faults out.old) (P.faults out.new) (result ≡ Status.OutFault) }
{
    let Ok(text) = text_of(alloc, n, summary) else {
        return Status::NoMemory;
    };
    match write_all(out, text.as_bytes()) {
        Ok(()) => Status::Done,
        Err(WorkError::OutFault) => Status::OutFault,
        Err(WorkError::NoMemory | WorkError::DiskFault) => Status::NoMemory,
    }
}

fn text_of(alloc: Global, n: u64, summary: &Summary) -> Result<String, AllocError>
    ensures { IfOk result (λ s. string_bytes s ≡ summary_lines n summary.now) }
{
    let digest = hex::encode(alloc, summary.digest)?;
    let mut text = String::new(alloc);
    push_line(&mut text, "drill", n)?;
    push_line(&mut text, "clients", CLIENTS)?;
    push_line(&mut text, "requests", REQUESTS)?;
    push_line(&mut text, "reads", summary.reads)?;
    push_line(&mut text, "writes", summary.writes)?;
    push_line(&mut text, "sectors", summary.sectors)?;
    push_line(&mut text, "plain", digest.as_str())?;
    Ok(text)
}
