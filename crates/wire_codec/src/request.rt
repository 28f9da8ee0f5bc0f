//! What a message asks for.

ghost use Rattle.std.specs.Prelude.{◌≡◌, ◌≤◌, IfOk};
ghost use Rattle.xs_model.specs.Requests.{request_of, all_types, path_request, write_request, rm_request, set_perms_request, part_request, or_einval};
ghost use Rattle.wire_codec.specs.Codec.{IsRequest, AsksInForm, operation_of};

use crate::{domain, payload, transaction, watch};
use std::alloc::{AllocError, Global};
use thiserror::Error;
use xs_base::Bytes;
use xs_model::message::{Header, kind};
use xs_path::Path;
use xs_perms::Perms;

/// What a tree command does at its path (xenstore.txt, "Database read, write and permissions operations").
#[derive(Debug, Drop)]
pub enum TreeOp {
    /// Answers the names of the children.
    Directory,
    /// Answers the value.
    Read,
    /// Answers the permission entries.
    GetPerms,
    /// Sets the value, and creates what is missing.
    Write(Bytes),
    /// Creates what is missing, with an empty value.
    Mkdir,
    /// Removes the node and all nodes below it.
    Rm,
    /// Sets the permission entries.
    SetPerms(Perms),
    /// Answers the names of the children from an offset into their list on, as many as one reply takes.
    DirectoryPart { offset: u64 },
}

/// A command on the tree.
#[derive(Debug, Drop)]
pub struct TreeCommand {
    pub op: TreeOp,
    pub path: Path,
}

/// What a payload asks for.
#[derive(Debug, Drop)]
pub enum Request {
    /// A command on the tree.
    Command(TreeCommand),
    /// A watch is set at a path for a domain or a special path, and this token is told with its events.
    Watch { wpath: Bytes, token: Bytes },
    /// The watch that was set with this path and this token is removed.
    Unwatch { wpath: Bytes, token: Bytes },
    /// A transaction is opened.
    Start,
    /// A transaction ends, and what was done in it is committed or dropped.
    End { commit: bool },
    /// A domain gets a ring connection, with this event channel.
    Introduce { domid: u16, evtchn: u32 },
    /// A domain loses its ring connection.
    Release { domid: u16 },
    /// The path of a domain is wanted.
    DomainPath { domid: u16 },
    /// Whether a domain has a ring connection is wanted.
    IsIntroduced { domid: u16 },
    /// A domain stands for another one besides itself.
    SetTarget { domid: u16, target: u16 },
    /// All watches of the connection are removed, and its open transactions are dropped.
    ResetWatches,
}

/// Why a message asks for nothing: the first refusal, in the order of the variants.
#[derive(Clone, Copy, Debug, PartialEq, Eq, Error)]
pub enum RequestErr {
    /// The type is none of the profile.
    #[error("the type is none of the profile")]
    Enosys,
    /// The payload is outside its form.
    #[error("the payload is outside its form")]
    Einval,
    /// No memory was found for what it holds.
    #[error("out of memory")]
    NoMemory,
}

impl From<AllocError> for RequestErr {
    ghost use Rattle.std.specs.Prelude.{◌≡◌};
    ghost use Rattle.wire_codec.specs.declared.request.RequestErr.TheVariants.{NoMemory};

    ghost from_gives = { λ _ e. e ≡ NoMemory };

    fn from(_error: AllocError) -> RequestErr {
        RequestErr::NoMemory
    }
}

/// What a domain's message asks for, by the type in its header and its payload: the payloads of xenstore.txt.
/// O(length of the payload).
///
/// It reads every type of xs_wire.h that the profile has; which of them are served is the daemon's business. Another type
/// and a payload outside its form are refused before memory is taken, so that no want of memory is told in their place.
pub fn read_request(
    alloc: Global,
    head: Header,
    payload: &[u8],
    domid: u16,
) -> Result<Request, RequestErr>
    requires { domid ≤ 32751 }
    ensures asked { IsRequest result (request_of all_types head.kind payload.now domid) }
    // It is not RM of `/`, nor RELEASE of domain 0, nor SET_PERMS without entries, and its domids are in bounds.
    ensures in_form { IfOk result AsksInForm }
{
    match head.kind {
        kind::DIRECTORY => at_path(alloc, TreeOp::Directory, payload, domid),
        kind::READ => at_path(alloc, TreeOp::Read, payload, domid),
        kind::GET_PERMS => at_path(alloc, TreeOp::GetPerms, payload, domid),
        kind::WATCH => watch::watch(alloc, payload, domid),
        kind::UNWATCH => watch::unwatch(alloc, payload, domid),
        kind::TRANSACTION_START => Ok(Request::Start),
        kind::TRANSACTION_END => transaction::end(payload).ok_or(RequestErr::Einval),
        kind::WRITE => write(alloc, payload, domid),
        kind::MKDIR => at_path(alloc, TreeOp::Mkdir, payload, domid),
        kind::RM => rm(alloc, payload, domid),
        kind::SET_PERMS => set_perms(alloc, payload, domid),
        kind::INTRODUCE => domain::introduce(payload).ok_or(RequestErr::Einval),
        kind::RELEASE => domain::release(payload).ok_or(RequestErr::Einval),
        kind::GET_DOMAIN_PATH => domain::domain_path(payload).ok_or(RequestErr::Einval),
        kind::IS_DOMAIN_INTRODUCED => domain::is_introduced(payload).ok_or(RequestErr::Einval),
        kind::SET_TARGET => domain::set_target(payload).ok_or(RequestErr::Einval),
        kind::RESET_WATCHES => Ok(Request::ResetWatches),
        kind::DIRECTORY_PART => directory_part(alloc, payload, domid),
        _ => Err(RequestErr::Enosys),
    }
}

/// DIRECTORY, READ, GET_PERMS or MKDIR: exactly one string, a path.
fn at_path(alloc: Global, op: TreeOp, payload: &[u8], domid: u16) -> Result<Request, RequestErr>
    requires { domid ≤ 32751 }
    ensures { IsRequest result (or_einval (path_request (operation_of op) payload.now domid)) }
{
    let path = payload::one_path(alloc, payload, domid)?;
    Ok(Request::Command(TreeCommand { op, path }))
}

/// RM: exactly one string, a path other than `/`.
fn rm(alloc: Global, payload: &[u8], domid: u16) -> Result<Request, RequestErr>
    requires { domid ≤ 32751 }
    ensures { IsRequest result (or_einval (rm_request payload.now domid)) }
{
    let Some(string) = payload::one_string(payload) else {
        return Err(RequestErr::Einval);
    };
    if payload::is_root(string) {
        return Err(RequestErr::Einval);
    }
    let path = payload::path(alloc, string, domid)?;
    Ok(Request::Command(TreeCommand {
        op: TreeOp::Rm,
        path,
    }))
}

/// WRITE: one string, a path, and all bytes after it are the value.
fn write(alloc: Global, payload: &[u8], domid: u16) -> Result<Request, RequestErr>
    requires { domid ≤ 32751 }
    ensures { IsRequest result (or_einval (write_request payload.now domid)) }
{
    let Some((string, value)) = payload::cut_string(payload) else {
        return Err(RequestErr::Einval);
    };
    let path = payload::path(alloc, string, domid)?;
    let value = Bytes::copy(alloc, value)?;
    Ok(Request::Command(TreeCommand {
        op: TreeOp::Write(value),
        path,
    }))
}

/// SET_PERMS: one string, a path, and one entry or more after it.
fn set_perms(alloc: Global, payload: &[u8], domid: u16) -> Result<Request, RequestErr>
    requires { domid ≤ 32751 }
    ensures { IsRequest result (or_einval (set_perms_request payload.now domid)) }
{
    let Some((string, entries)) = payload::cut_string(payload) else {
        return Err(RequestErr::Einval);
    };
    if !payload::are_perms(entries) {
        return Err(RequestErr::Einval);
    }
    let path = payload::path(alloc, string, domid)?;
    let perms = payload::perms(alloc, entries)?;
    Ok(Request::Command(TreeCommand {
        op: TreeOp::SetPerms(perms),
        path,
    }))
}

/// DIRECTORY_PART: one string, a path, and an offset after it.
fn directory_part(alloc: Global, payload: &[u8], domid: u16) -> Result<Request, RequestErr>
    requires { domid ≤ 32751 }
    ensures { IsRequest result (or_einval (part_request payload.now domid)) }
{
    let Some((string, field)) = payload::cut_string(payload) else {
        return Err(RequestErr::Einval);
    };
    let Some(offset) = payload::offset(field) else {
        return Err(RequestErr::Einval);
    };
    let path = payload::path(alloc, string, domid)?;
    Ok(Request::Command(TreeCommand {
        op: TreeOp::DirectoryPart { offset },
        path,
    }))
}
