//! What stands at the other end of a connection, by its kind and the eight bytes that tell more of it.

ghost use Rattle.std.specs.Prelude.{◌≡◌, ◌≤◌, length, IfSome};
ghost use Rattle.machine_model.specs.Connections.{caller_of};
ghost use Rattle.kept_model.specs.Loading.{target_of, ring_spec, spec_of};

use machine_model::ConnSpec;
use mig_records::fields::{u16_at, u32_at};

/// The greatest domid that a domain has.
const DOMID_MAX: u16 = 32751;

/// The number that stands for no target.
const NO_TARGET: u16 = 32756;

/// The kind of a ring.
const RING: u16 = 0;

/// The kind of a socket.
const SOCKET: u16 = 1;

/// A target, or none, if the number stands for either.
fn target_of(number: u16) -> Option<Option<u16>>
    ensures { result ≡ target_of number }
{
    if number <= DOMID_MAX {
        return Some(Some(number));
    }
    if number == NO_TARGET {
        Some(None)
    } else {
        None
    }
}

fn ring_spec(domid: u16, evtchn: u32, target: Option<Option<u16>>) -> Option<ConnSpec>
    ensures spec { result ≡ ring_spec domid evtchn target }
    ensures domid { IfSome result (λ spec. (caller_of spec).domid ≤ 32751) }
{
    let target = target?;
    if domid <= DOMID_MAX {
        Some(ConnSpec::Ring {
            domid,
            target,
            evtchn,
        })
    } else {
        None
    }
}

/// The other end, if these bytes tell one.
pub fn spec_of(kind: u16, bytes: &[u8; 8]) -> Option<ConnSpec>
    ensures spec { result ≡ spec_of kind bytes.now }
    ensures domid { IfSome result (λ spec. (caller_of spec).domid ≤ 32751) }
{
    if kind == RING {
        return ring_spec(
            u16_at(bytes, 0),
            u32_at(bytes, 4),
            target_of(u16_at(bytes, 2)),
        );
    }
    if kind == SOCKET {
        return Some(ConnSpec::Socket {
            fd: u32_at(bytes, 0),
        });
    }
    None
}
