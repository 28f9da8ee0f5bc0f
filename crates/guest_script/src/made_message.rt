//! The request of an operation of a made script, in bytes.

ghost use Rattle.std.specs.Prelude.{◌≡◌, ◌+◌, ◌≤◌, ◌<◌, ◌^◌, ◌∷◌, ◌++◌, [], length, decimal};
ghost use Rattle.xs_model.specs.Messages.{header_bytes, message_bytes};
ghost use Rattle.guest_script.specs.Made.{leaf_of, path_in, tree_request, turn_request, watch_request, request_for};

use crate::generator::{Choice, Known, may_watch};
use crate::line_text::{LINE_ROOM, LineText, NUMBER_ROOM};
use byteorder::{ByteOrder, LittleEndian};
use xs_model::message::{HEADER_SIZE, Header, kind};

/// A `J` that stands for no last name.
const NO_LEAF: u32 = 8;

/// The request of the operation with this number, by what was drawn and what was made for its domain before.
pub fn request_text(choice: Choice, number: u32, drawn: u32, known: Known) -> LineText
    ensures { result ≡ message_bytes (request_for choice number drawn known) }
{
    let mut text = LineText::new();
    match choice {
        Choice::Read => put_tree_request(&mut text, kind::READ, number, drawn, known),
        Choice::Write => {
            text.put_number(u64::from(drawn));
            put_tree_request(&mut text, kind::WRITE, number, drawn, known);
        }
        Choice::Mkdir => put_tree_request(&mut text, kind::MKDIR, number, drawn, known),
        Choice::Rm => put_tree_request(&mut text, kind::RM, number, drawn, known),
        Choice::Directory => put_tree_request(&mut text, kind::DIRECTORY, number, drawn, known),
        Choice::GetPerms => put_tree_request(&mut text, kind::GET_PERMS, number, drawn, known),
        Choice::Transaction => put_turn_request(&mut text, number, known),
        Choice::Watch => put_watch_request(&mut text, number, drawn, known),
    }
    text
}

/// A request on the tree, before what follows the NUL of its path.
fn put_tree_request(text: &mut LineText, kind: u32, number: u32, drawn: u32, known: Known)
    requires { length text.old ≤ NUMBER_ROOM }
    ensures { text.new ≡ message_bytes (tree_request kind number drawn known text.old) }
{
    put_path(text, drawn);
    put_head(text, kind, number, u32::from(known.is_open));
}

/// The start of a transaction, or the end of the one that was left open.
fn put_turn_request(text: &mut LineText, number: u32, known: Known)
    requires { text.old ≡ [] }
    ensures { text.new ≡ message_bytes (turn_request number known) }
{
    if known.is_open {
        text.put_words(b"T\0");
        put_head(text, kind::TRANSACTION_END, number, 1);
    } else {
        text.put_words(b"\0");
        put_head(text, kind::TRANSACTION_START, number, 0);
    }
}

/// A watch, or a read where there are enough.
fn put_watch_request(text: &mut LineText, number: u32, drawn: u32, known: Known)
    requires { text.old ≡ [] }
    ensures { text.new ≡ message_bytes (watch_request number drawn known) }
{
    if !may_watch(known) {
        put_tree_request(text, kind::READ, number, drawn, known);
        return;
    }
    text.put_words(b"\0");
    text.put_number(u64::from(number));
    put_path(text, drawn);
    put_head(text, kind::WATCH, number, 0);
}

/// The path that a drawn number chooses, and its NUL.
fn put_path(text: &mut LineText, drawn: u32)
    requires { length text.old ≤ NUMBER_ROOM + 1 }
    ensures path { text.new ≡ path_in drawn ++ 0 ∷ text.old }
    ensures len { length text.new ≤ 50 + length text.old }
{
    text.put_words(b"\0");
    put_leaf(text, drawn / 256 % 9);
    text.put_number(u64::from(drawn / 32 % 8));
    text.put_words(b"/bulk/");
}

/// The last name of a path, if it has one.
fn put_leaf(text: &mut LineText, leaf: u32)
    requires { length text.old ≤ 100 }
    ensures text { text.new ≡ leaf_of leaf ++ text.old }
    ensures len { length text.new ≤ 1 + NUMBER_ROOM + length text.old }
{
    if leaf != NO_LEAF {
        text.put_number(u64::from(leaf));
        text.put_words(b"/");
    }
}

/// The header of a message, before its payload.
pub fn put_head(text: &mut LineText, kind: u32, req_id: u32, tx_id: u32)
    requires { HEADER_SIZE + length text.old ≤ LINE_ROOM }
    ensures { text.new ≡ message_bytes (record { kind = kind; req_id = req_id; tx_id = tx_id; payload = text.old }) }
{
    let len = text.as_slice().len() as u32;
    let head = Header {
        kind,
        req_id,
        tx_id,
        len,
    };
    text.put_words(&head_bytes(&head));
}

/// The bytes of a header.
fn head_bytes(head: &Header) -> [u8; HEADER_SIZE]
    ensures { result ≡ header_bytes head.now }
{
    let mut bytes = [0; HEADER_SIZE];
    LittleEndian::write_u32(&mut bytes[0..4], head.kind);
    LittleEndian::write_u32(&mut bytes[4..8], head.req_id);
    LittleEndian::write_u32(&mut bytes[8..12], head.tx_id);
    LittleEndian::write_u32(&mut bytes[12..16], head.len);
    bytes
}
