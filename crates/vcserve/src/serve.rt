//! `serve`: the top call over the container and the clients' files. `drill`: the same call over the standard output alone.
use crate::clients::{ClientRefusal, Streams, clients_of, has_output, tell_client_refusal};
use crate::container::tell_trouble;
use crate::{Ending, ended};
use std::fs::File;
use std::io;
use std::rt::Files;
use std::sync::Wait;
use std::thread::Threads;
use vc_app::{ServeEnd, Status, run_serve};
use vc_host::{FileSink, FileStore, StreamSink};
use vc_outside::{Client, NoGate, SureSink, SureSource, SureStore};

/// Serves the container to the clients that have these files. What is printed of them goes to the standard error if
/// the standard output is a client's.
pub(crate) fn serve<R: Files<File = File> + Eprint + AllocGlobal + Threads + Wait + Sync>(
    rt: &R,
    streams: Streams,
    path: &str,
    words: &[String],
    files: &[String],
    disk: FileStore,
    is_person: bool,
) -> Ending {
    let clients = match clients_of(rt, streams, files, &disk) {
        Ok(clients) => clients,
        Err(refusal) => return refused(rt, &refusal, words, is_person),
    };
    let out = if has_output(files) {
        FileSink::error(streams.stderr)
    } else {
        FileSink::output(streams.stdout)
    };
    let ServeEnd {
        status,
        disk,
        clients: _clients,
        out: _out,
        hands: _hands,
        ends: _ends,
        replies: _replies,
        callers: _callers,
        pass: _pass,
    } = run_serve(rt, rt.alloc(), words, disk, clients, out, &NoGate);
    let ending = ended(rt, Ending::Status(status), words, is_person);
    if is_person {
        let _ = tell_trouble(rt, path, &disk);
    }
    ending
}

/// Runs a drill, which has no container and no clients from outside. Returns its status.
pub(crate) fn drill<R: Print + AllocGlobal + Threads + Wait + Sync>(
    rt: &R,
    words: &[String],
    disk: SureStore,
) -> Status {
    let clients: Vec<Client<SureSource, SureSink>> = Vec::new(rt.alloc());
    let out = StreamSink::new(io::writer(rt));
    let ServeEnd {
        status,
        disk: _disk,
        clients: _clients,
        out: _out,
        hands: _hands,
        ends: _ends,
        replies: _replies,
        callers: _callers,
        pass: _pass,
    } = run_serve(rt, rt.alloc(), words, disk, clients, out, &NoGate);
    status
}

fn refused<R: Eprint + AllocGlobal>(
    rt: &R,
    refusal: &ClientRefusal<'_>,
    words: &[String],
    is_person: bool,
) -> Ending {
    let status = match refusal {
        ClientRefusal::File(..) => Status::DiskFault,
        ClientRefusal::NoMemory => Status::NoMemory,
    };
    let ending = ended(rt, Ending::Status(status), words, is_person);
    if is_person {
        let _ = tell_client_refusal(rt, refusal);
    }
    ending
}
