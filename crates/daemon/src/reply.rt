//! Replies, and their bytes.

ghost use Rattle.std.specs.Prelude.{◌≡◌, ◌≤◌, [], length, take, IfOk, Ok, Err};
ghost use Rattle.xs_model.specs.Messages.{header_of, payload_of, message_bytes, string, error_name};
ghost use Rattle.machine_model.specs.Machine.{reply_message};
ghost use Rattle.daemon.specs.Acts.{IsReply, reply_length};
ghost use Rattle.daemon.specs.Peers.{message_limit};

use crate::answer::Door;
use owed_bytes::Owed;
use std::alloc::Global;
use wire_codec::{Header, WireErr, put_message, read_header};
use xs_base::Bytes;
use xs_model::message::kind;

/// What a request is answered: a payload, or an error.
pub type Reply = Result<Bytes, WireErr>;

/// What a request is answered, which ring connection came or went with it, and what it owes to connections.
#[derive(Drop)]
pub struct Answer {
    pub reply: Reply,
    pub door: Door,
    pub owed: Owed,
}

impl Answer {
    /// A payload, with all connections as they were, and nothing owed.
    pub fn of(alloc: Global, payload: Bytes) -> Answer
        ensures reply { result.reply ≡ Ok payload }
        ensures door { result.door ≡ Door.Same }
        ensures owed { result.owed ≡ [] }
    {
        Answer::of_reply(alloc, Ok(payload))
    }

    /// A reply, with all connections as they were, and nothing owed.
    pub fn of_reply(alloc: Global, reply: Reply) -> Answer
        ensures reply { result.reply ≡ reply }
        ensures door { result.door ≡ Door.Same }
        ensures owed { result.owed ≡ [] }
    {
        Answer {
            reply,
            door: Door::Same,
            owed: Owed::new(alloc),
        }
    }

    /// A refusal, with all connections as they were, and nothing owed.
    pub fn refused(alloc: Global, error: WireErr) -> Answer
        ensures reply { result.reply ≡ Err error }
        ensures door { result.door ≡ Door.Same }
        ensures owed { result.owed ≡ [] }
    {
        Answer::of_reply(alloc, Err(error))
    }
}

/// What comes of a request.
#[derive(Drop)]
pub enum Answered {
    /// It was done.
    Done(Answer),
    /// It was not: this connection would have too many unsent bytes.
    Crowded { conn: u32 },
}

/// The number of bytes of a reply's message.
pub fn reply_length(reply: &Reply) -> usize
    requires { IfOk reply.now (λ payload. length payload ≤ 4096) }
    ensures value { result ≡ reply_length reply.now }
    ensures within { result ≤ message_limit }
{
    match reply {
        Ok(payload) => 16 + payload.len(),
        Err(error) => 16 + error_string(*error).len(),
    }
}

/// The header of a message.
pub fn head_of(message: &[u8]) -> Header
    requires { 16 ≤ length message.now }
    ensures { result ≡ header_of message.now }
{
    read_header(message.first_chunk::<16>().unwrap())
}

/// The payload of a message.
pub fn payload_of(message: &[u8]) -> &[u8]
    requires { 16 ≤ length message.now }
    ensures { result.now ≡ payload_of message.now }
{
    &message[16..]
}

/// Writes the reply to a request with this header. O(its length).
pub fn put_reply(head: Header, reply: &Reply, into: &mut [u8; 4112]) -> usize
    requires { IfOk reply.now (λ payload. length payload ≤ 4096) }
    ensures bytes { take result into.new ≡ message_bytes (reply_message head reply.now) }
    ensures whole { IsReply (take result into.new) }
    ensures within { result ≤ 4112 }
{
    match reply {
        Ok(payload) => put_payload(head, payload.as_slice(), into),
        Err(error) => put_error(head, *error, into),
    }
}

/// Writes a reply with a payload.
fn put_payload(head: Header, payload: &[u8], into: &mut [u8; 4112]) -> usize
    requires { length payload.now ≤ 4096 }
    ensures bytes { take result into.new ≡ message_bytes (reply_message head (Ok payload.now)) }
    ensures whole { IsReply (take result into.new) }
    ensures within { result ≤ 4112 }
{
    let len = payload.len() as u32;
    put_message(Header { len, ..head }, payload, into)
}

/// Writes a refusal: the name of the error, and a NUL.
fn put_error(head: Header, error: WireErr, into: &mut [u8; 4112]) -> usize
    ensures bytes { take result into.new ≡ message_bytes (reply_message head (Err error)) }
    ensures whole { IsReply (take result into.new) }
    ensures within { result ≤ 4112 }
{
    let name = error_string(error);
    let len = name.len() as u32;
    let kind = kind::ERROR;
    put_message(Header { kind, len, ..head }, name, into)
}

/// The name of an error, with the NUL that ends it.
fn error_string(error: WireErr) -> &'static [u8]
    ensures value { result.now ≡ string (error_name error) }
    ensures short { length result.now ≤ 8 }
{
    match error {
        WireErr::Einval => b"EINVAL\0",
        WireErr::Eacces => b"EACCES\0",
        WireErr::Eexist => b"EEXIST\0",
        WireErr::Enoent => b"ENOENT\0",
        WireErr::Enospc => b"ENOSPC\0",
        WireErr::Ebusy => b"EBUSY\0",
        WireErr::Eagain => b"EAGAIN\0",
        WireErr::E2big => b"E2BIG\0",
        WireErr::Enosys => b"ENOSYS\0",
    }
}
