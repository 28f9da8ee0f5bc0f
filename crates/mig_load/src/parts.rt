//! The parts of the store that bytes tell.

ghost use Rattle.std.specs.Prelude.{◌≡◌, ◌⊎◌, Ok, Err, MatchResult, IfOk, map};
ghost use Rattle.stream_model.specs.declared.fault.StreamFault.{StreamFault};
ghost use Rattle.stream_model.specs.Reading.{stream_of};
ghost use Rattle.xs_model.specs.Generations.{greatest};
ghost use Rattle.kept_model.specs.Normal.{normal_state, state_of_bytes};
ghost use Rattle.watchers.specs.Watched.{AreOwn};
ghost use Rattle.store_parts.specs.Kept.{kept_in};
ghost use Rattle.store_parts.specs.States.{state_of};
ghost use Rattle.mig_load.specs.Came.{AreOf};

use crate::loading::{Loading, Pending};
use crate::memory::or_fault;
use crate::settling::first_orphan;
use crate::stream::load_records;
use kept_model::LoadFault;
use msg_reassembly::Ins;
use std::alloc::Global;
use store_parts::Parts;
use xs_base::NoMemory;

/// The parts that came, with what is said of transactions joined to the tree; the bytes that were read; and the paths of
/// transactions, which may leave nodes without their parents.
fn settled(alloc: Global, loading: Loading) -> Result<(Parts, Ins, Vec<Pending>), NoMemory>
    ensures state { IfOk result (λ settled. state_of (kept_in settled.0) settled.1.entries ≡ normal_state loading.state) }
    ensures pending { IfOk result (λ settled. settled.2.items ≡ loading.pending) }
    ensures queues { IfOk result (λ settled. map (λ e. e.0) settled.0.rows.queues ≡ map (λ e. e.0) settled.0.conns) }
    ensures txns { IfOk result (λ settled. map (λ e. e.0) settled.0.rows.txns ≡ map (λ e. e.0) settled.0.conns) }
    ensures own { IfOk result (λ settled. AreOwn settled.0.conns settled.0.watchers) }
    ensures named { IfOk result (λ settled. AreOf settled.0.conns settled.0.watchers) }
    ensures read { IfOk result (λ settled. map (λ e. e.0) settled.1.entries ≡ map (λ e. e.0) settled.0.conns) }
    ensures counter { IfOk result (λ settled. settled.0.tree.counter ≡ greatest settled.0.tree.gens) }
{
    let Loading {
        conns,
        nodes,
        globals,
        has_globals: _,
        pending,
    } = loading;
    let tree = nodes.into_tree();
    let (conns, watchers, rows, ins) = conns.settle(alloc, &tree)?;
    let parts = Parts {
        conns,
        watchers,
        rows,
        tree,
        globals,
    };
    Ok((parts, ins, pending))
}

/// The parts of the store that bytes tell, and the bytes that were read from its connections and are not answered.
///
/// A refusal is the first fault of the stream, whatever memory there is; else the first fault of the first record at fault;
/// else the first path that a transaction leaves without its parent; or want of memory. O(bytes * log(nodes + connections))
/// comparisons.
pub fn load_parts(alloc: Global, bytes: &[u8]) -> Result<(Parts, Ins), LoadFault>
    ensures told { MatchResult result (λ loaded. state_of_bytes bytes.now ≡ Ok (state_of (kept_in loaded.0) loaded.1.entries))
        (λ fault. (fault ≡ LoadFault.NoMemory) ⊎ (state_of_bytes bytes.now ≡ Err fault)) }
    ensures stream { (fault : StreamFault) → stream_of bytes.now ≡ Err fault → result ≡ Err (LoadFault.Stream fault) }
    ensures queues { IfOk result (λ loaded. map (λ e. e.0) loaded.0.rows.queues ≡ map (λ e. e.0) loaded.0.conns) }
    ensures txns { IfOk result (λ loaded. map (λ e. e.0) loaded.0.rows.txns ≡ map (λ e. e.0) loaded.0.conns) }
    ensures own { IfOk result (λ loaded. AreOwn loaded.0.conns loaded.0.watchers) }
    ensures named { IfOk result (λ loaded. AreOf loaded.0.conns loaded.0.watchers) }
    ensures read { IfOk result (λ loaded. map (λ e. e.0) loaded.1.entries ≡ map (λ e. e.0) loaded.0.conns) }
    ensures counter { IfOk result (λ loaded. loaded.0.tree.counter ≡ greatest loaded.0.tree.gens) }
{
    let loading = load_records(alloc, bytes)?;
    let (parts, ins, pending) = or_fault(settled(alloc, loading))?;
    if let Some(rec) = first_orphan(alloc, &parts.tree, &parts.rows, pending) {
        return Err(LoadFault::Orphan { rec });
    }
    Ok((parts, ins))
}
