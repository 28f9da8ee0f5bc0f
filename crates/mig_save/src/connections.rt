//! The records of connections.

ghost use Rattle.std.specs.Prelude.{◌≡◌, ◌++◌, OnOk};
ghost use Rattle.std.specs.Option.{option_copied, option_map};
ghost use Rattle.stream_model.specs.Fields.{u16_bytes, u32_bytes};
ghost use Rattle.kept_model.specs.Images.{target_number, kind_number, spec_bytes};
ghost use Rattle.machine_model.specs.History.{bytes_or_none};
ghost use Rattle.store_parts.specs.States.{or_zero};
ghost use Rattle.mig_save.specs.Texts.{connection_data_of, connection_text, connections_text, DataFits, ConnectionsFit};

use byteorder::{ByteOrder, LittleEndian};
use conn_rows::{Row, Rows};
use conn_table::ConnSpec;
use mig_records::write_connection;
use msg_reassembly::{Inbox, Ins};
use store_parts::Conns;
use xs_base::{Bytes, NoMemory};

/// What stands in the place of the target of a ring that has none.
const NO_TARGET: u16 = 32756;

fn target_number(target: Option<u16>) -> u16
    ensures { result ≡ target_number target }
{
    match target {
        Some(domid) => domid,
        None => NO_TARGET,
    }
}

fn kind_number(spec: ConnSpec) -> u16
    ensures { result ≡ kind_number spec }
{
    match spec {
        ConnSpec::Ring { .. } => 0,
        ConnSpec::Socket { .. } => 1,
    }
}

fn ring_bytes(domid: u16, target: u16, evtchn: u32) -> [u8; 8]
    ensures { result ≡ u16_bytes domid ++ (u16_bytes target ++ u32_bytes evtchn) }
{
    let mut cells = [0; 8];
    LittleEndian::write_u16(&mut cells, domid);
    LittleEndian::write_u16(&mut cells[2..], target);
    LittleEndian::write_u32(&mut cells[4..], evtchn);
    cells
}

fn socket_bytes(fd: u32) -> [u8; 8]
    ensures { result ≡ u32_bytes fd ++ u32_bytes 0 }
{
    let mut cells = [0; 8];
    LittleEndian::write_u32(&mut cells, fd);
    cells
}

fn spec_bytes(spec: ConnSpec) -> [u8; 8]
    ensures { result ≡ spec_bytes spec }
{
    match spec {
        ConnSpec::Ring {
            domid,
            target,
            evtchn,
        } => ring_bytes(domid, target_number(target), evtchn),
        ConnSpec::Socket { fd } => socket_bytes(fd),
    }
}

/// What is unsent, where there is a row.
pub fn unsent_in(row: Option<&Row>) -> &[u8]
    ensures { result.now ≡ bytes_or_none (option_map (λ row. row.queue.bytes) (option_copied row.entry)) }
{
    match row {
        Some(row) => row.queue().bytes(),
        None => b"",
    }
}

/// How many bytes of it end a message that was sent in part.
fn rest_in(row: Option<&Row>) -> usize
    ensures { result ≡ or_zero (option_map (λ row. row.queue.rest) (option_copied row.entry)) }
{
    match row {
        Some(row) => row.queue().rest(),
        None => 0,
    }
}

/// What was read, where there is an inbox.
pub fn bytes_in(inbox: Option<&Inbox>) -> &[u8]
    ensures { result.now ≡ bytes_or_none (option_copied inbox.entry) }
{
    match inbox {
        Some(inbox) => inbox.bytes(),
        None => b"",
    }
}

/// Appends the record of one connection. O(log connections + its bytes).
fn write_one(
    out: &mut Bytes,
    id: u32,
    spec: ConnSpec,
    rows: &Rows,
    ins: &Ins,
) -> Result<(), NoMemory>
    requires { DataFits (connection_data_of rows.now.queues ins.now.entries (id, spec)) }
    ensures { OnOk result (out.new ≡ out.old ++ connection_text rows.now.queues ins.now.entries (id, spec)) }
{
    let row = rows.row(id);
    let rest = rest_in(row) as u32;
    let inbox = bytes_in(ins.get(id));
    let spec_cells = spec_bytes(spec);
    write_connection(
        out,
        id,
        kind_number(spec),
        &spec_cells,
        rest,
        inbox,
        unsent_in(row),
    )
}

/// Appends the records of the connections, by their ids. O(log connections) each, and O(their bytes).
pub fn write_connections(
    out: &mut Bytes,
    conns: &Conns,
    rows: &Rows,
    ins: &Ins,
) -> Result<(), NoMemory>
    requires { ConnectionsFit conns.now rows.now.queues ins.now.entries }
    ensures { OnOk result (out.new ≡ out.old ++ connections_text conns.now rows.now.queues ins.now.entries) }
{
    for entry in conns.entries() {
        write_one(out, entry.0, entry.1, rows, ins)?;
    }
    Ok(())
}
