//! What bytes tell, once every record came.

ghost use Rattle.std.specs.Prelude.{◌≡◌, ◌⊎◌, Ok, Err, MatchResult};
ghost use Rattle.stream_model.specs.declared.fault.StreamFault.{StreamFault};
ghost use Rattle.stream_model.specs.Reading.{stream_of};
ghost use Rattle.mig_load.specs.Told.{told_by_bytes};

use crate::loading::Loading;
use crate::records::loaded;
use kept_model::LoadFault;
use mig_records::Reader;
use std::alloc::Global;

/// What the records of a stream tell, before what is said of transactions is joined to the tree.
///
/// A refusal is the first fault of the stream, whatever memory there is; else the first fault of the first record at fault,
/// or want of memory. O(bytes * log(nodes + connections)) comparisons, and it moves the connections of higher ids where
/// they do not come in rising order.
pub fn load_records(alloc: Global, bytes: &[u8]) -> Result<Loading, LoadFault>
    ensures told { MatchResult result (λ loading. told_by_bytes bytes.now ≡ Ok loading)
        (λ fault. (fault ≡ LoadFault.NoMemory) ⊎ (told_by_bytes bytes.now ≡ Err fault)) }
    // A fault of the stream is the answer whatever memory there is.
    ensures stream { (fault : StreamFault) → stream_of bytes.now ≡ Err fault → result ≡ Err (LoadFault.Stream fault) }
{
    match Reader::new(bytes) {
        Ok(reader) => loaded(alloc, reader),
        Err(fault) => Err(LoadFault::Stream(fault)),
    }
}
