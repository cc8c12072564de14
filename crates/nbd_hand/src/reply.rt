//! What is replied to an option, put together before it is sent.
ghost use Rattle.std.specs.Prelude.{◌≡◌, ◌≤◌, ◌+◌, ℕ, List, [], ◌++◌, length, take};
ghost use Rattle.byteorder.specs.Endian.{big_bytes};
ghost use Rattle.nbd_hand.specs.Laws.Sent.{reply_head};
ghost use Rattle.nbd_hand.specs.Options.{alone, export, info_replies, list_replies, replies};
ghost use Rattle.nbd_hand.specs.Wire.{option_reply};

use crate::asked::Asked;
use crate::option::{ABORT, EXPORT_NAME, GO, INFO, LIST};
use byteorder::{BigEndian, ByteOrder};
use std::marker::Model;

const REPLY_MAGIC: u64 = 0x0003_e889_0455_65a9;

// The kinds of replies.
const ACK: u32 = 1;

const SERVER: u32 = 2;

const INFORMATION: u32 = 3;

const UNSUPPORTED: u32 = 0x8000_0001;

const INVALID: u32 = 0x8000_0003;

const UNKNOWN: u32 = 0x8000_0006;

// NBD_INFO_EXPORT.
const INFO_EXPORT: u16 = 0;

// NBD_FLAG_HAS_FLAGS, NBD_FLAG_SEND_FLUSH and NBD_FLAG_SEND_FUA.
const EXPORT_FLAGS: u16 = 13;

// The most bytes of a reply: that to option 1 with its zeros.
pub(crate) const MOST: usize = 134;

// The bytes of a reply. Contracts see it as their list.
#[derive(Drop)]
pub(crate) struct Reply {
    buf: [u8; MOST],
    len: usize,
}

impl Model for Reply {
    ghost Value = { List ℕ };

    ghost view = { λ r. take r.len r.buf };

    ghost invariant = { λ r. r.len ≤ 134 };
}

impl Reply {
    pub(crate) fn new() -> Reply
        ensures { result ≡ [] }
    {
        Reply {
            buf: [0; MOST],
            len: 0,
        }
    }

    pub(crate) fn bytes(&self) -> &[u8]
        ensures { result.now ≡ self.now }
    {
        &self.buf[..self.len]
    }

    pub(crate) fn push(&mut self, part: &[u8])
        requires { length self.old + length part.now ≤ 134 }
        ensures { self.new ≡ self.old ++ part.now }
    {
        let end = self.len + part.len();
        self.buf[self.len..end].copy_from_slice(part);
        self.len = end;
    }

    fn push_u16(&mut self, n: u16)
        requires { length self.old + 2 ≤ 134 }
        ensures { self.new ≡ self.old ++ big_bytes 2 n }
    {
        let mut part = [0u8; 2];
        BigEndian::write_u16(&mut part, n);
        self.push(&part);
    }

    fn push_u32(&mut self, n: u32)
        requires { length self.old + 4 ≤ 134 }
        ensures { self.new ≡ self.old ++ big_bytes 4 n }
    {
        let mut part = [0u8; 4];
        BigEndian::write_u32(&mut part, n);
        self.push(&part);
    }

    fn push_u64(&mut self, n: u64)
        requires { length self.old + 8 ≤ 134 }
        ensures { self.new ≡ self.old ++ big_bytes 8 n }
    {
        let mut part = [0u8; 8];
        BigEndian::write_u64(&mut part, n);
        self.push(&part);
    }

    // Adds the size of the export and its flags.
    fn push_export(&mut self, size: u64)
        requires { length self.old + 10 ≤ 134 }
        ensures { self.new ≡ self.old ++ export size }
    {
        self.push_u64(size);
        self.push_u16(EXPORT_FLAGS);
    }

    // Adds the head of the reply to an option, whose data has `n` bytes.
    fn push_head(&mut self, number: u32, kind: u32, n: u32)
        requires { length self.old + 20 ≤ 134 }
        ensures { self.new ≡ self.old ++ reply_head number kind n }
    {
        self.push_u64(REPLY_MAGIC);
        self.push_u32(number);
        self.push_u32(kind);
        self.push_u32(n);
    }
}

// The reply to an option without data.
fn reply_alone(number: u32, kind: u32) -> Reply
    ensures { result ≡ option_reply number kind [] }
{
    let mut reply = Reply::new();
    reply.push_head(number, kind, 0);
    reply
}

// The reply to option 1.
fn export_reply(size: u64, zeros: bool) -> Reply
    ensures { result ≡ alone size zeros }
{
    let mut reply = Reply::new();
    reply.push_export(size);
    if zeros {
        reply.push(&[0; 124]);
    }
    reply
}

// The one export, and that there is no other.
fn names() -> Reply
    ensures { result ≡ list_replies Asked.Default }
{
    let mut reply = Reply::new();
    reply.push_head(LIST, SERVER, 4);
    reply.push_u32(0);
    reply.push_head(LIST, ACK, 0);
    reply
}

// What there is to know of the export.
fn details(size: u64, number: u32) -> Reply
    ensures { result ≡ info_replies size number Asked.Default }
{
    let mut reply = Reply::new();
    reply.push_head(number, INFORMATION, 12);
    reply.push_u16(INFO_EXPORT);
    reply.push_export(size);
    reply.push_head(number, ACK, 0);
    reply
}

// The replies to option 3.
fn list_replies(what: Asked) -> Reply
    ensures { result ≡ list_replies what }
{
    match what {
        Asked::Default => names(),
        Asked::Named => reply_alone(LIST, INVALID),
        Asked::Malformed => reply_alone(LIST, INVALID),
    }
}

// The replies to options 6 and 7.
fn info_replies(size: u64, number: u32, what: Asked) -> Reply
    ensures { result ≡ info_replies size number what }
{
    match what {
        Asked::Default => details(size, number),
        Asked::Named => reply_alone(number, UNKNOWN),
        Asked::Malformed => reply_alone(number, INVALID),
    }
}

// All that is replied to an option.
pub(crate) fn replies(size: u64, zeros: bool, number: u32, what: Asked) -> Reply
    ensures { result ≡ replies size zeros number what }
{
    if number == EXPORT_NAME {
        return export_reply(size, zeros);
    }
    if number == ABORT {
        return reply_alone(ABORT, ACK);
    }
    if number == LIST {
        return list_replies(what);
    }
    if number == INFO || number == GO {
        return info_replies(size, number, what);
    }
    reply_alone(number, UNSUPPORTED)
}
