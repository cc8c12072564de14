//! The replies to one client, read by its requests.
ghost use Rattle.std.specs.Prelude.{◌≡◌, ◌↔◌, ◌+◌, ◌<◌, List, drop, IsTrue, MatchOption};
ghost use Rattle.drill_streams.specs.Drill.{requests, writes_of};
ghost use Rattle.drill_streams.specs.Done.{AreDone, BeginDone, data_length, IsCalm, puts};
ghost use Rattle.nbd_wire.specs.Replies.{AnsweredOf};
ghost use Rattle.nbd_wire.specs.Wire.{reply};

use crate::requests::{READ, REQUESTS, request, word};
use nbd_wire::{End, REPLY, Request, write_reply};
use sector_model::Event;

/// Whether these bytes are twelve replies to a client, one for each of its requests, and each says that the
/// request was done. If so, whatever was served left in its history the writes of the client, each once and in
/// their order, and lost nothing of them.
pub fn are_done(n: u64, client: u64, replies: &[u8]) -> bool
    requires { client < 3 }
    ensures done { IsTrue result ↔ AreDone (requests n client) replies.now }
    ensures puts { IsTrue result → (es : List Event)
        → AnsweredOf 512 (requests n client) End.Done es 12 replies.now End.Done → puts es ≡ writes_of n client }
    ensures calm { IsTrue result → (es : List Event)
        → AnsweredOf 512 (requests n client) End.Done es 12 replies.now End.Done → IsCalm es }
{
    all_done(n, client, replies)
}

// The same without what it means for the history.
fn all_done(n: u64, client: u64, replies: &[u8]) -> bool
    requires { client < 3 }
    ensures { IsTrue result ↔ AreDone (requests n client) replies.now }
{
    let mut rest = replies;
    for index in 0..REQUESTS {
        let request = request(client, index, word(n, client, index));
        let Some(others) = after_reply(&request, rest) else {
            return false;
        };
        rest = others;
    }
    rest.is_empty()
}

// The bytes after the reply to a request that was done, if they begin with one.
fn after_reply<'a>(q: &Request, bytes: &'a [u8]) -> Option<&'a [u8]>
    ensures { MatchOption result (¬ BeginDone q.now bytes.now)
        (λ rest. BeginDone q.now bytes.now × (rest.now ≡ drop (16 + data_length q.now) bytes.now)) }
{
    let data = if q.kind == READ { q.length as usize } else { 0 };
    let whole = REPLY + data;
    if bytes.len() < whole || !is_done(q.cookie, &bytes[..REPLY]) {
        return None;
    }
    Some(&bytes[whole..])
}

// Whether these are the reply to a request that was done.
fn is_done(cookie: u64, bytes: &[u8]) -> bool
    ensures { IsTrue result ↔ (bytes.now ≡ reply 0 cookie) }
{
    let mut want = [0u8; REPLY];
    write_reply(0, cookie, &mut want);
    bytes == &want[..]
}
