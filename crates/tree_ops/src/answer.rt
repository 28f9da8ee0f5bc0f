//! Answers, and the edits that carry them out.

ghost use Rattle.std.specs.Prelude.{◌≡◌, [], IfOk};
ghost use Rattle.xs_model.specs.Commands.{refusal, success, sized};
ghost use Rattle.tree_ops.specs.Answers.{edits_of, answer_of};

use node_tree::Node;
use std::alloc::Global;
use wire_codec::WireErr;
use xs_base::{Bytes, NoMemory};
use xs_model::message::PAYLOAD_MAX;
use xs_path::Path;

/// Edits of a tree.
#[derive(Drop)]
pub enum Edits {
    /// Each path gets its node, the first one first.
    Sets(Vec<(Path, Node)>),
    /// Each path is removed.
    Removals(Vec<Path>),
}

/// What a command answers, and the edits that are still to be made.
#[derive(Drop)]
pub struct Answer {
    pub reply: Result<Bytes, WireErr>,
    pub edits: Edits,
}

/// An error, and no edits.
pub fn refusal(alloc: Global, error: WireErr) -> Answer
    ensures { answer_of result ≡ refusal error }
{
    Answer {
        reply: Err(error),
        edits: Edits::Sets(Vec::new(alloc)),
    }
}

/// OK, and the edits.
pub fn success(alloc: Global, edits: Edits) -> Result<Answer, NoMemory>
    ensures { IfOk result (λ answer. answer_of answer ≡ success (edits_of edits)) }
{
    let reply = Ok(Bytes::copy(alloc, b"OK\0")?);
    Ok(Answer { reply, edits })
}

/// Data, which is refused where it is longer than a payload may be, and no edits.
pub fn shown(alloc: Global, payload: Bytes) -> Answer
    ensures { answer_of result ≡ record { reply = sized payload; edits = [] } }
{
    let reply = if payload.len() > PAYLOAD_MAX {
        Err(WireErr::E2big)
    } else {
        Ok(payload)
    };
    Answer {
        reply,
        edits: Edits::Sets(Vec::new(alloc)),
    }
}
