//! How the clients ended: the status, and a line for each.
ghost use Rattle.std.specs.Prelude.{◌≡◌, ◌≢◌, ◌≤◌, ◌⊎◌, ◌+◌, ◌++◌, ℕ, length, drop, IfOk, IfSome, IsErrOf, OnOk, string_bytes};
ghost use Rattle.vc_base.specs.Faults.{HasCause, Rose};
ghost use Rattle.vc_outside.specs.Told.{Grows, GrowsByFront};
ghost use Rattle.vc_app.specs.Serve.{client_line, end_name, end_status, ends_status, EndsBy, IsOfClient, lines, or_later, session_name, session_status};

use crate::counts::WorkError;
use crate::output::write_all;
use crate::status::Status;
use nbd_hand::HandEnd;
use nbd_wire::End;
use std::alloc::{AllocError, Global};
use vc_outside::Sink;

// Writes a line for each client, and returns the status of the call. The container was synced.
pub(crate) fn write_ends<P: Sink>(
    alloc: Global,
    out: &mut P,
    hands: &[HandEnd],
    ends: &[End],
    replies: &[u64],
) -> Status
    requires few { length ends.now ≤ 16 }
    requires hands_as_long { length hands.now ≡ length ends.now }
    requires as_long { length replies.now ≡ length ends.now }
    ensures statuses { EndsBy (ends_status 0 hands.now ends.now) result }
    ensures no_disk_fault { result ≢ Status.DiskFault }
    ensures printed { GrowsByFront (P.contents out.old) (P.contents out.new) (lines 0 hands.now ends.now replies.now) }
    ensures all_printed { result ≡ Status.Done
        → Grows (P.contents out.old) (P.contents out.new) (lines 0 hands.now ends.now replies.now) }
    ensures clients_printed { IsOfClient result
        → Grows (P.contents out.old) (P.contents out.new) (lines 0 hands.now ends.now replies.now)
        ⊎ Rose (P.faults out.old) (P.faults out.new) }
    ensures out_fault { HasCause (P.faults out.old) (P.faults out.new) (result ≡ Status.OutFault) }
{
    let status = worst_of(hands, ends);
    match write_lines(alloc, out, hands, ends, replies) {
        Ok(()) => status,
        Err(WorkError::OutFault) => or_out_fault(status),
        Err(WorkError::NoMemory | WorkError::DiskFault) => Status::NoMemory,
    }
}

// The status of a call whose output failed, if the clients' ends give this one.
fn or_out_fault(status: Status) -> Status
    ensures { result ≡ or_later status Status.OutFault }
{
    match status {
        Status::Done => Status::OutFault,
        _ => status,
    }
}

// The status that the clients' ends give: that of the least one that didn't end well.
fn worst_of(hands: &[HandEnd], ends: &[End]) -> Status
    requires few { length ends.now ≤ 16 }
    requires hands_as_long { length hands.now ≡ length ends.now }
    ensures { result ≡ ends_status 0 hands.now ends.now }
{
    'clients: for i in 0..ends.len() {
        let status = status_of(i as u32, hands[i], ends[i]);
        if status != Status::Done {
            return status;
        }
    }
    Status::Done
}

// The status of a client's end. It has a session only if its handshake ended with `Go`.
fn status_of(client: u32, hand: HandEnd, end: End) -> Status
    ensures { result ≡ end_status client hand end }
{
    match hand {
        HandEnd::Go => session_status(client, end),
        HandEnd::Aborted => Status::Done,
        HandEnd::Cut => Status::ClientCut(client),
        HandEnd::Refused(refusal) => Status::ClientHand(client, refusal),
        HandEnd::ReadFault | HandEnd::WriteFault => Status::ClientFault(client),
        HandEnd::NoMemory => Status::NoMemory,
    }
}

fn session_status(client: u32, end: End) -> Status
    ensures { result ≡ session_status client end }
{
    match end {
        End::Done => Status::Done,
        End::Cut => Status::ClientCut(client),
        End::BadMagic(magic) => Status::ClientMagic(client, magic),
        End::ReadFault | End::WriteFault => Status::ClientFault(client),
        End::NoMemory => Status::NoMemory,
    }
}

// Writes the lines of all clients.
fn write_lines<P: Sink>(
    alloc: Global,
    out: &mut P,
    hands: &[HandEnd],
    ends: &[End],
    replies: &[u64],
) -> Result<(), WorkError>
    requires few { length ends.now ≤ 16 }
    requires hands_as_long { length hands.now ≡ length ends.now }
    requires as_long { length replies.now ≡ length ends.now }
    ensures done { OnOk result (Grows (P.contents out.old) (P.contents out.new) (lines 0 hands.now ends.now replies.now)) }
    ensures front { GrowsByFront (P.contents out.old) (P.contents out.new) (lines 0 hands.now ends.now replies.now) }
    ensures cause { HasCause (P.faults out.old) (P.faults out.new) (IsErrOf result WorkError.OutFault) }
    ensures not_disk { IsErrOf result WorkError.DiskFault → ⊥ }
{
    let Ok(text) = text_of(alloc, hands, ends, replies) else {
        return Err(WorkError::NoMemory);
    };
    write_all(out, text.as_bytes())
}

// The lines of all clients.
fn text_of(
    alloc: Global,
    hands: &[HandEnd],
    ends: &[End],
    replies: &[u64],
) -> Result<String, AllocError>
    requires few { length ends.now ≤ 16 }
    requires hands_as_long { length hands.now ≡ length ends.now }
    requires as_long { length replies.now ≡ length ends.now }
    ensures { IfOk result (λ s. string_bytes s ≡ lines 0 hands.now ends.now replies.now) }
{
    let mut text = String::new(alloc);
    'clients: for i in 0..ends.len() {
        push_line(&mut text, i as u32, hands[i], ends[i], replies[i])?;
    }
    Ok(text)
}

// Adds the line of a client.
fn push_line(
    text: &mut String,
    client: u32,
    hand: HandEnd,
    end: End,
    replies: u64,
) -> Result<(), AllocError>
    ensures { OnOk result (string_bytes text.new ≡ string_bytes text.old ++ client_line client hand end replies) }
{
    text.push_str("client ")?;
    text.write(client)?;
    text.push_str(" ")?;
    text.push_str(name_of(hand, end))?;
    text.push_str(" ")?;
    text.write(replies)?;
    text.push_str("\n")
}

fn name_of(hand: HandEnd, end: End) -> &'static str
    ensures { result.now ≡ end_name hand end }
{
    match hand {
        HandEnd::Go => session_name(end),
        HandEnd::Aborted => "aborted",
        HandEnd::Cut => "cut",
        HandEnd::Refused(_) => "refused",
        HandEnd::ReadFault => "read-fault",
        HandEnd::WriteFault => "write-fault",
        HandEnd::NoMemory => "no-memory",
    }
}

fn session_name(end: End) -> &'static str
    ensures { result.now ≡ session_name end }
{
    match end {
        End::Done => "done",
        End::Cut => "cut",
        End::BadMagic(_) => "magic",
        End::ReadFault => "read-fault",
        End::WriteFault => "write-fault",
        End::NoMemory => "no-memory",
    }
}
