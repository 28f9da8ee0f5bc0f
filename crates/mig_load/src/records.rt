//! All records of a stream, one after the other.

ghost use Rattle.std.specs.Prelude.{◌≡◌, ◌⊎◌, Ok, Err, MatchResult};
ghost use Rattle.mig_records.specs.RecordView.{record_of};
ghost use Rattle.kept_model.specs.Loading.{none_came, load_globals, load_connection, load_watch, load_transaction, load_node_data, load_record, load_from};
ghost use Rattle.mig_load.specs.Steps.{Steps};

use crate::entries::NodeRecord;
use crate::loading::{ConnectionRecord, Loading};
use crate::memory::or_fault;
use kept_model::LoadFault;
use mig_records::{Reader, Record};
use std::alloc::Global;

impl Loading {
    /// A record came. Refused, nothing has changed.
    fn record(&mut self, alloc: Global, rec: usize, item: Record) -> Result<(), LoadFault>
        ensures { Steps (load_record rec self.old (record_of item)) self.old self.new result }
    {
        match item {
            Record::Global {
                rw_socket_fd,
                evtchn_fd,
            } => self.globals(rec, rw_socket_fd, evtchn_fd),
            Record::Connection {
                conn,
                kind,
                spec,
                rest,
                inbox,
                unsent,
            } => {
                let item = ConnectionRecord {
                    conn,
                    kind,
                    spec,
                    rest,
                    inbox,
                    unsent,
                };
                self.connection(alloc, rec, item)
            }
            Record::Watch { conn, wpath, token } => self.watch(alloc, rec, conn, &wpath, &token),
            Record::Transaction { conn, tx, count } => {
                self.transaction(alloc, rec, conn, tx, count)
            }
            Record::Node {
                conn,
                tx,
                access,
                perms,
                path,
                value,
            } => {
                let item = NodeRecord {
                    conn,
                    tx,
                    access,
                    perms,
                    path,
                    value,
                };
                self.node_data(alloc, rec, item)
            }
            Record::End => Ok(()),
        }
    }
}

/// What all records tell, one after the other, or the first fault of the first record at fault.
pub fn loaded(alloc: Global, reader: Reader<'_>) -> Result<Loading, LoadFault>
    requires { reader.at ≡ 16 }
    ensures { MatchResult result (λ loading. load_from 0 none_came reader.entry.records ≡ Ok loading)
        (λ fault. (fault ≡ LoadFault.NoMemory) ⊎ (load_from 0 none_came reader.entry.records ≡ Err fault)) }
{
    let mut loading = or_fault(Loading::new(alloc))?;
    let mut reader = reader;
    let mut rec = 0;
    'records: while let Some(item) = or_fault(reader.next(alloc))? {
        let _place = reader.place();
        if let Err(fault) = loading.record(alloc, rec, item) {
            return Err(fault);
        }
        rec += 1;
    }
    Ok(loading)
}
