//! The top call of `serve` and `drill`.
ghost use Rattle.std.specs.Prelude.{◌≡◌, ◌≤◌, ◌<◌, ◌^◌, ◌⊎◌, ℕ, [], length, map, string_bytes, All, Contains, IfErr, IfOk, IfSome, MatchOption, None, Some, option_map, replicate};
ghost use Rattle.vc_base.specs.Faults.{HasCause, Rose};
ghost use Rattle.cmd_words.specs.Meaning.{meaning};
ghost use Rattle.cmd_words.specs.Ranges.{IsInRange};
ghost use Rattle.kdf_hmac.specs.Pbkdf2.{IsPim};
ghost use Rattle.hist_lock.specs.Known.{IsWhole, closed, numbers_of, view};
ghost use Rattle.hist_lock.specs.History.{SameUnder};
ghost use Rattle.io_queue.specs.Closed.{IsLeft};
ghost use Rattle.io_queue.specs.Pass.{caller_of, IsPass, NothingOpen};
ghost use Rattle.vol_server.specs.Served.{AreGreeted, AreNew, Gained, IsBack};
ghost use Rattle.vc_header.specs.Header.{Meets};
ghost use Rattle.vc_layout.specs.Layout.{IsContainerLength, IsSectorSize};
ghost use Rattle.vc_outside.specs.Crash.{IsLasting, Outcomes, Stays};
ghost use Rattle.vc_outside.specs.Told.{Grows, GrowsByFront};
ghost use Rattle.vc_app.specs.Drill.{Answered, Drilled, drilled};
ghost use Rattle.vc_app.specs.Laws.Opening.{IsFirst, Opening, RanFrom};
ghost use Rattle.vc_app.specs.Serve.{asked, asked_by, call, ends_status, EndsBy, export_of, IsAfterSync, IsComplete, IsOfClient, IsOpening, Kept, lines, most_clients};

use crate::serve::asked::Asked;
use crate::serve::ends::write_ends;
use crate::serve::opening::{memory_status, open_asked};
use crate::serve::summary::{drill_number, write_drill};
use crate::status::Status;
use cascade_set::{Keyed, Keys};
use cipher_base::UnitCipher;
use cmd_words::{Command, read_words};
use header_try::Opened;
use hist_lock::{Pass, Standing};
use io_core::{Core, NoMemory};
use io_queue::Volume;
use nbd_hand::HandEnd;
use nbd_wire::End;
use std::alloc::{AllocError, Global};
use std::sync::Wait;
use std::thread::Threads;
use vc_header::geometry_of;
use vc_outside::{Client, Gate, Sink, Source, Store};
use vol_server::{Served, serve, serve_hand};

pub mod asked;
mod ends;
mod opening;
mod summary;

/// How many writes may be pending at a time: one of each client.
const PENDING: u32 = 16;

/// How a call of `serve` or `drill` ended. Item i of each list belongs to client i of the call; they are empty if none of
/// these was served.
#[derive(Drop)]
pub struct ServeEnd<D: Store, I, O, P>
where
    Core<D, Keyed>: Standing,
{
    pub status: Status,
    pub disk: D,
    pub clients: Vec<Client<I, O>>,
    pub out: P,
    /// How the handshakes ended. Without `--handshake` there were none, and each counts as `Go`.
    pub hands: Vec<HandEnd>,
    /// How the sessions ended. A client whose handshake didn't end with `Go` has none, which counts as `Done`.
    pub ends: Vec<End>,
    /// How many replies were written whole.
    pub replies: Vec<u64>,
    /// The numbers under which the clients' entries are in the history.
    pub callers: Vec<u64>,
    /// The pass of the volume, if that was opened. It has seen the whole history.
    pub pass: Option<Pass<Core<D, Keyed>>>,
}

/// Carries out `serve` over a container, its clients and an output, or `drill`, which uses only the output. All of them
/// are given back.
///
/// The headers are opened, `--protect`'s too, and the clients' requests are answered by one history of the volume, after
/// a handshake with each client if that is asked. Once all clients have ended, the container is synced, and a line for
/// each client is written.
///
/// A drill serves clients of its own over a container in memory; neither the container nor the clients of the call are
/// touched, however many there are. Its work passes the same points at `gate`.
pub fn run_serve<
    R: Threads + Wait + Sync,
    D: Store + Send,
    I: Source + Send,
    O: Sink + Send,
    P: Sink,
    G: Gate,
>(
    rt: &R,
    alloc: Global,
    words: &[String],
    disk: D,
    clients: Vec<Client<I, O>>,
    out: P,
    gate: &G,
) -> ServeEnd<D, I, O, P>
    ensures kept { Answered ⟦<D as Store>⟧ ⟦<Keyed as UnitCipher>⟧ ⟦<I as Source>⟧ ⟦<O as Sink>⟧ (drilled (map string_bytes words.now))
        (asked (map string_bytes words.now) (length clients.items)) (option_map (λ p. view p.seat) result.pass)
        (call ⟦<D as Store>⟧ ⟦<P as Sink>⟧ disk clients.items out result) }
    ensures opening { IsOpening (asked (map string_bytes words.now) (length clients.items))
        (option_map (λ p. view p.seat) result.pass)
        (call ⟦<D as Store>⟧ ⟦<P as Sink>⟧ disk clients.items out result) }
    ensures complete { IsComplete ⟦<I as Source>⟧ ⟦<O as Sink>⟧ (asked (map string_bytes words.now) (length clients.items))
        (call ⟦<D as Store>⟧ ⟦<P as Sink>⟧ disk clients.items out result) }
{
    carry_out(rt, alloc, words, disk, clients, out, gate)
}

// Reads the arguments and carries out what they ask.
fn carry_out<
    R: Threads + Wait + Sync,
    D: Store + Send,
    I: Source + Send,
    O: Sink + Send,
    P: Sink,
    G: Gate,
>(
    rt: &R,
    alloc: Global,
    words: &[String],
    disk: D,
    clients: Vec<Client<I, O>>,
    out: P,
    gate: &G,
) -> ServeEnd<D, I, O, P>
    ensures { Answered ⟦<D as Store>⟧ ⟦<Keyed as UnitCipher>⟧ ⟦<I as Source>⟧ ⟦<O as Sink>⟧ (drilled (map string_bytes words.now))
        (asked (map string_bytes words.now) (length clients.items)) (option_map (λ p. view p.seat) result.pass)
        (call ⟦<D as Store>⟧ ⟦<P as Sink>⟧ disk clients.items out result) }
{
    match read_words(alloc, words) {
        Ok(command) => match drill_number(&command) {
            Some(n) => run_drill(rt, alloc, n, disk, clients, out, gate),
            None => serve_or_refuse(rt, alloc, command, disk, clients, out, gate),
        },
        Err(error) => {
            let status = Status::from(error);
            idle_end(alloc, status, disk, clients, out, None)
        }
    }
}

// Serves the clients, if the command asks for it and their number is right.
fn serve_or_refuse<
    R: Threads + Wait + Sync,
    D: Store + Send,
    I: Source + Send,
    O: Sink + Send,
    P: Sink,
    G: Gate,
>(
    rt: &R,
    alloc: Global,
    command: Command,
    disk: D,
    clients: Vec<Client<I, O>>,
    out: P,
    gate: &G,
) -> ServeEnd<D, I, O, P>
    requires { IsInRange (meaning command) }
    ensures { Kept ⟦<D as Store>⟧ ⟦<Keyed as UnitCipher>⟧ ⟦<I as Source>⟧ ⟦<O as Sink>⟧
        (asked_by (length clients.items) (meaning command)) (option_map (λ p. view p.seat) result.pass)
        (call ⟦<D as Store>⟧ ⟦<P as Sink>⟧ disk clients.items out result) }
{
    match asked_of(command, &clients) {
        Some(asked) => serve_asked(rt, alloc, &asked, disk, clients, out, gate),
        None => idle_end(alloc, Status::Usage, disk, clients, out, None),
    }
}

// Runs a drill, and gives everything else back.
fn run_drill<R: Threads + Wait + Sync, D: Store, I, O, P: Sink, G: Gate>(
    rt: &R,
    alloc: Global,
    n: u64,
    disk: D,
    clients: Vec<Client<I, O>>,
    out: P,
    gate: &G,
) -> ServeEnd<D, I, O, P>
    requires { n < 2 ^ 32 }
    ensures pass { option_map (λ p. view p.seat) result.pass ≡ None }
    ensures drilled { Drilled n (call ⟦<D as Store>⟧ ⟦<P as Sink>⟧ disk clients.items out result) }
{
    let mut out = out;
    let status = write_drill(rt, alloc, n, &mut out, gate);
    idle_end(alloc, status, disk, clients, out, None)
}

// What a command asks of a call with these clients.
fn asked_of<I, O>(command: Command, clients: &Vec<Client<I, O>>) -> Option<Asked>
    requires { IsInRange (meaning command) }
    ensures asked { result ≡ asked_by (length clients.now.items) (meaning command) }
    ensures some { IfSome result (λ a. 1 ≤ length clients.now.items) }
    ensures few { IfSome result (λ a. length clients.now.items ≤ most_clients) }
    ensures pim { IfSome result (λ a. IsPim a.access.pim) }
    ensures protect_pim { IfSome result (λ a. IfSome a.protect (λ p. IsPim p.pim)) }
    ensures helpers { IfSome result (λ a. a.helpers ≤ 8) }
    ensures workers { IfSome result (λ a. (1 ≤ a.workers) × (a.workers ≤ 8)) }
{
    Asked::of(command, clients.len())
}

// The end of a call that served nobody.
fn idle_end<D: Store, I, O, P>(
    alloc: Global,
    status: Status,
    disk: D,
    clients: Vec<Client<I, O>>,
    out: P,
    pass: Option<Pass<Core<D, Keyed>>>,
) -> ServeEnd<D, I, O, P>
    ensures status { result.status ≡ status }
    ensures disk { result.disk ≡ disk }
    ensures clients { result.clients.items ≡ clients.items }
    ensures out { result.out ≡ out }
    ensures hands { result.hands.items ≡ [] }
    ensures ends { result.ends.items ≡ [] }
    ensures replies { result.replies.items ≡ [] }
    ensures callers { result.callers.items ≡ [] }
    ensures pass { result.pass ≡ pass }
{
    ServeEnd {
        status,
        disk,
        clients,
        out,
        hands: Vec::new(alloc),
        ends: Vec::new(alloc),
        replies: Vec::new(alloc),
        callers: Vec::new(alloc),
        pass,
    }
}

// Opens the headers and serves the clients.
fn serve_asked<
    R: Threads + Wait + Sync,
    D: Store + Send,
    I: Source + Send,
    O: Sink + Send,
    P: Sink,
    G: Gate,
>(
    rt: &R,
    alloc: Global,
    asked: &Asked,
    disk: D,
    clients: Vec<Client<I, O>>,
    out: P,
    gate: &G,
) -> ServeEnd<D, I, O, P>
    requires some { 1 ≤ length clients.items }
    requires few { length clients.items ≤ most_clients }
    requires pim { IsPim asked.now.access.pim }
    requires protect_pim { IfSome asked.now.protect (λ p. IsPim p.pim) }
    requires helpers { asked.now.helpers ≤ 8 }
    requires workers { (1 ≤ asked.now.workers) × (asked.now.workers ≤ 8) }
    ensures { Kept ⟦<D as Store>⟧ ⟦<Keyed as UnitCipher>⟧ ⟦<I as Source>⟧ ⟦<O as Sink>⟧
        (Some asked.now) (option_map (λ p. view p.seat) result.pass)
        (call ⟦<D as Store>⟧ ⟦<P as Sink>⟧ disk clients.items out result) }
{
    let mut disk = disk;
    let at_start = disk.faults();
    match open_asked(rt, alloc, &mut disk, asked, gate) {
        Ok((opened, protect)) => serve_opened(
            rt,
            alloc,
            &opened,
            protect,
            at_start,
            disk,
            clients,
            out,
            asked.helpers,
            asked.handshake,
            gate,
        ),
        Err(status) => idle_end(alloc, status, disk, clients, out, None),
    }
}

// Serves the volume of an opened header. `faults` is the container's count when the call began.
fn serve_opened<
    R: Threads + Wait + Sync,
    D: Store + Send,
    I: Source + Send,
    O: Sink + Send,
    P: Sink,
    G: Gate,
>(
    rt: &R,
    alloc: Global,
    opened: &Opened,
    protect: Option<(u64, u64)>,
    faults: u64,
    disk: D,
    clients: Vec<Client<I, O>>,
    out: P,
    helpers: u32,
    handshake: bool,
    gate: &G,
) -> ServeEnd<D, I, O, P>
    requires some { 1 ≤ length clients.items }
    requires few { length clients.items ≤ most_clients }
    requires helpers { helpers ≤ 8 }
    requires meets { Meets opened.now.fields opened.now.slot (D.size disk) }
    requires in_range { IsContainerLength (D.size disk) }
    requires faults { faults ≤ D.faults disk }
    ensures { Opening ⟦<D as Store>⟧ ⟦<Keyed as UnitCipher>⟧ ⟦<I as Source>⟧ ⟦<O as Sink>⟧
        opened.now protect faults handshake (option_map (λ p. view p.seat) result.pass)
        (call ⟦<D as Store>⟧ ⟦<P as Sink>⟧ disk clients.items out result) }
{
    let keyed = Keyed::new(&Keys {
        algorithm: opened.algorithm,
        material: opened.fields.material,
    });
    let geometry = geometry_of(&opened.fields);
    match Volume::open(alloc, disk, geometry, keyed, protect, PENDING) {
        Ok((volume, pass)) => {
            serve_volume(
                rt, alloc, volume, pass, clients, out, helpers, handshake, gate,
            )
        }
        Err((NoMemory, disk)) => {
            let status = memory_status(&disk, faults);
            idle_end(alloc, status, disk, clients, out, None)
        }
    }
}

// Serves a volume whose first pass this is, and closes it. What is promised holds whatever the container was when the
// call began.
fn serve_volume<
    R: Threads + Wait + Sync,
    D: Store + Send,
    I: Source + Send,
    O: Sink + Send,
    P: Sink,
    G: Gate,
>(
    rt: &R,
    alloc: Global,
    volume: Volume<D, Keyed>,
    pass: Pass<Core<D, Keyed>>,
    clients: Vec<Client<I, O>>,
    out: P,
    helpers: u32,
    handshake: bool,
    gate: &G,
) -> ServeEnd<D, I, O, P>
    requires some { 1 ≤ length clients.items }
    requires few { length clients.items ≤ most_clients }
    requires helpers { helpers ≤ 8 }
    requires pass { IsPass volume.lock.table.shared.table_id volume.geometry volume.cipher pass.seat }
    requires open { NothingOpen (view pass.seat) }
    requires first { IsFirst (view pass.seat) }
    requires sector { IsSectorSize volume.geometry.sector }
    ensures { (disk : D) → MatchOption (option_map (λ p. view p.seat) result.pass) ⊥ (λ v. RanFrom
        ⟦<D as Store>⟧ ⟦<Keyed as UnitCipher>⟧ ⟦<I as Source>⟧ ⟦<O as Sink>⟧ handshake (view pass.seat) v
        (call ⟦<D as Store>⟧ ⟦<P as Sink>⟧ disk clients.items out result)) }
{
    let mut pass = pass;
    let mut out = out;
    match serve_clients(
        rt, alloc, &volume, &mut pass, clients, helpers, handshake, gate,
    ) {
        Ok((served, hands)) => {
            let (disk, pass) = close_whole(volume, pass);
            let mut disk = disk;
            let Served {
                ends,
                replies,
                callers,
                clients,
            } = served;
            let status = end_call(alloc, &mut disk, &mut out, &hands, &ends, &replies);
            ServeEnd {
                status,
                disk,
                clients,
                out,
                hands,
                ends,
                replies,
                callers,
                pass: Some(pass),
            }
        }
        Err((NoMemory, clients)) => {
            let (disk, pass) = close_whole(volume, pass);
            idle_end(alloc, Status::NoMemory, disk, clients, out, Some(pass))
        }
    }
}

// Serves the clients, each after a handshake if that is asked. Without one it counts as a handshake that ended with `Go`.
fn serve_clients<
    R: Threads + Wait + Sync,
    S: Store + Send,
    C: UnitCipher + Send + Sync,
    I: Source + Send,
    O: Sink + Send,
    G: Gate,
>(
    rt: &R,
    alloc: Global,
    volume: &Volume<S, C>,
    pass: &mut Pass<Core<S, C>>,
    clients: Vec<Client<I, O>>,
    helpers: u32,
    handshake: bool,
    gate: &G,
) -> Result<(Served<I, O>, Vec<HandEnd>), (NoMemory, Vec<Client<I, O>>)>
    requires pass { IsPass volume.now.lock.table.shared.table_id volume.now.geometry volume.now.cipher pass.old.seat }
    requires open { NothingOpen (view pass.old.seat) }
    requires sector { IsSectorSize volume.now.geometry.sector }
    requires some { 1 ≤ length clients.items }
    requires few { length clients.items ≤ most_clients }
    requires helpers { helpers ≤ 8 }
    ensures pass { IsPass volume.now.lock.table.shared.table_id volume.now.geometry volume.now.cipher pass.new.seat }
    ensures open { NothingOpen (view pass.new.seat) }
    ensures same { IsBack (view pass.old.seat) (view pass.new.seat) }
    ensures settled { SameUnder caller_of (numbers_of (view pass.old.seat)) (view pass.new.seat).seen (view pass.old.seat).seen }
    ensures served { IfOk result (λ r. AreGreeted ⟦<I as Source>⟧ ⟦<O as Sink>⟧ (export_of handshake volume.now.geometry)
        volume.now.geometry.sector (view pass.new.seat).seen clients.items r.0.clients.items r.1.items r.0.ends.items
        r.0.replies.items r.0.callers.items) }
    ensures callers { IfOk result (λ r. AreNew (view pass.old.seat).given r.0.callers.items) }
    ensures under { IfOk result (λ r. Gained r.0.callers.items (view pass.old.seat) (view pass.new.seat)) }
    ensures err { IfErr result (λ e. (e.1 ≡ clients) × (view pass.new.seat ≡ view pass.old.seat)) }
{
    if handshake {
        return serve_hand(rt, alloc, volume, pass, clients, helpers, gate);
    }
    let Ok(hands) = all_go(alloc, &clients) else {
        return Err((NoMemory, clients));
    };
    match serve(rt, alloc, volume, pass, clients, helpers, gate) {
        Ok(served) => Ok((served, hands)),
        Err(refused) => Err(refused),
    }
}

// A handshake that ended with `Go` for each client.
fn all_go<I, O>(alloc: Global, clients: &Vec<Client<I, O>>) -> Result<Vec<HandEnd>, AllocError>
    ensures { IfOk result (λ hands. hands.items ≡ replicate (length clients.now.items) HandEnd.Go) }
{
    vec![in alloc; HandEnd::Go; clients.len()]
}

// Closes a volume with a pass that has the whole share.
fn close_whole<D: Store, C: UnitCipher>(
    volume: Volume<D, C>,
    pass: Pass<Core<D, C>>,
) -> (D, Pass<Core<D, C>>)
    requires pass { IsPass volume.lock.table.shared.table_id volume.geometry volume.cipher pass.seat }
    requires open { NothingOpen (view pass.seat) }
    requires whole { IsWhole (view pass.seat) }
    ensures pass { view result.1.seat ≡ closed (view pass.seat) }
    ensures left { IsLeft ⟦<D as Store>⟧ ⟦<C as UnitCipher>⟧ (view result.1.seat) result.0 }
    ensures callers { All (λ e. Contains (numbers_of (view result.1.seat)) e.caller) (view result.1.seat).seen }
{
    match volume.close(pass) {
        Ok(closed) => closed,
        Err(_kept) => unreachable!(),
    }
}

// Makes all writes lasting, and then writes the clients' lines. Returns the status of the call.
fn end_call<D: Store, P: Sink>(
    alloc: Global,
    disk: &mut D,
    out: &mut P,
    hands: &[HandEnd],
    ends: &[End],
    replies: &[u64],
) -> Status
    requires few { length ends.now ≤ 16 }
    requires hands_as_long { length hands.now ≡ length ends.now }
    requires as_long { length replies.now ≡ length ends.now }
    ensures statuses { EndsBy (ends_status 0 hands.now ends.now) result }
    ensures printed { GrowsByFront (P.contents out.old) (P.contents out.new) (lines 0 hands.now ends.now replies.now) }
    ensures all_printed { result ≡ Status.Done
        → Grows (P.contents out.old) (P.contents out.new) (lines 0 hands.now ends.now replies.now) }
    ensures clients_printed { IsOfClient result
        → Grows (P.contents out.old) (P.contents out.new) (lines 0 hands.now ends.now replies.now)
        ⊎ Rose (P.faults out.old) (P.faults out.new) }
    ensures quiet_fault { result ≡ Status.DiskFault → P.contents out.new ≡ P.contents out.old }
    ensures synced { IsAfterSync result → IsLasting D.tells (D.image disk.new) (D.may_leave disk.new) }
    ensures disk_fault { HasCause (D.faults disk.old) (D.faults disk.new) (result ≡ Status.DiskFault) }
    ensures out_fault { HasCause (P.faults out.old) (P.faults out.new) (result ≡ Status.OutFault) }
    ensures image { D.image disk.new ≡ D.image disk.old }
    ensures size { D.size disk.new ≡ D.size disk.old }
    ensures crash { Outcomes D.tells (D.moment disk.old) (D.moment disk.new) (D.left_since disk.old)
        (D.left_since disk.new) (D.may_leave disk.old) (D.may_leave disk.new) Stays }
{
    match disk.sync() {
        Ok(()) => write_ends(alloc, out, hands, ends, replies),
        Err(_) => Status::DiskFault,
    }
}
