//! The payload that ends a transaction (xenstore.txt, "Transactions").

ghost use Rattle.std.specs.Prelude.{◌≡◌, option_map};
ghost use Rattle.xs_model.specs.Requests.{end_request};
ghost use Rattle.wire_codec.specs.Codec.{request_view};

use crate::request::Request;

/// TRANSACTION_END: exactly one string, `T` to commit or `F` to drop. It takes no memory. O(1).
pub fn end(payload: &[u8]) -> Option<Request>
    ensures { option_map request_view result ≡ end_request payload.now }
{
    if payload == b"T\0".as_slice() {
        Some(Request::End { commit: true })
    } else if payload == b"F\0".as_slice() {
        Some(Request::End { commit: false })
    } else {
        None
    }
}
