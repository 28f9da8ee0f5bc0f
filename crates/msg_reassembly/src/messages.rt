//! The whole messages of a list of bytes.

ghost use Rattle.std.specs.Prelude.{◌≡◌, IfOk};
ghost use Rattle.msg_reassembly.specs.Inboxes.{messages_of};

use crate::front::{Front, from, front_of};
use std::alloc::Global;
use xs_base::{Bytes, Items, NoMemory};

/// Messages, each with its header.
pub type Messages = Items<Bytes>;

/// The whole messages of the bytes, up to the first header of a length above 4096, or to less than a message.
/// O(length of the bytes).
pub fn split(alloc: Global, bytes: &[u8]) -> Result<Messages, NoMemory>
    ensures { IfOk result (λ messages. messages ≡ messages_of bytes.now) }
{
    let mut messages = Items::new(alloc);
    let mut left = bytes;
    while let Front::Whole { len } = front_of(left) {
        messages.push(Bytes::copy(alloc, &left[..len])?)?;
        left = from(left, len);
    }
    Ok(messages)
}
