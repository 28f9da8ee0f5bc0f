//! The records of nodes.

ghost use Rattle.std.specs.Prelude.{◌≡◌, ◌≤◌, ◌++◌, OnOk, length};
ghost use Rattle.std.specs.Option.{option_copied};
ghost use Rattle.xs_model.specs.Generations.{generation_max};
ghost use Rattle.stream_model.specs.Spelling.{canonical_record};
ghost use Rattle.kept_model.specs.Sound.{NodeFits, FoundFits, NodesFit};
ghost use Rattle.kept_model.specs.Images.{value_in, perms_in, found_record};
ghost use Rattle.mig_save.specs.Texts.{entry_text, nodes_text, EntriesFit, tree_text};

use crate::scratch::{Scratch, set_perms, set_string};
use mig_records::write_node;
use node_tree::{Entry, Node, Tree};
use path_map::Walk;
use xs_base::{Bytes, NoMemory};
use xs_path::Path;
use xs_perms::Perm;

/// A number's lower 32 bits and those above them stand in two fields.
const LOW: u64 = 4294967296;

pub fn value_in(node: Option<&Node>) -> &[u8]
    ensures { result.now ≡ value_in (option_copied node.entry) }
{
    match node {
        Some(node) => node.value.as_slice(),
        None => b"",
    }
}

pub fn perms_in(node: Option<&Node>) -> &[Perm]
    ensures { result.now ≡ perms_in (option_copied node.entry) }
{
    match node {
        Some(node) => node.perms.as_slice(),
        None => &[],
    }
}

/// Appends the record of a node, or of none, at a path. O(its bytes and entries).
pub fn write_found(
    out: &mut Bytes,
    scratch: &mut Scratch,
    conn: u32,
    tx: u32,
    access: u16,
    path: &Path,
    node: Option<&Node>,
) -> Result<(), NoMemory>
    requires { FoundFits (option_copied node) }
    ensures { OnOk result (out.new ≡ out.old ++ canonical_record (found_record conn tx access path.now (option_copied node.entry))) }
{
    set_string(&mut scratch.path, path.bytes())?;
    set_perms(&mut scratch.perms, perms_in(node))?;
    write_node(
        out,
        conn,
        tx,
        access,
        scratch.perms.as_slice(),
        scratch.path.as_slice(),
        value_in(node),
    )
}

/// Appends the record of a node of the store. O(its bytes and entries).
fn write_entry(
    out: &mut Bytes,
    scratch: &mut Scratch,
    entry: &(Path, Entry),
) -> Result<(), NoMemory>
    requires fits { NodeFits entry.now.1.node }
    requires number { entry.now.1.generation ≤ generation_max }
    ensures { OnOk result (out.new ≡ out.old ++ entry_text entry.now) }
{
    let number = entry.1.generation;
    let low = (number % LOW) as u32;
    let high = (number / LOW) as u16;
    write_found(out, scratch, 0, low, high, &entry.0, Some(&entry.1.node))
}

/// Appends the records of the nodes that are still to come. O(their bytes and entries).
fn write_walk(out: &mut Bytes, scratch: &mut Scratch, walk: Walk<'_, Entry>) -> Result<(), NoMemory>
    requires { EntriesFit walk }
    ensures { OnOk result (out.new ≡ out.old ++ nodes_text walk.entry) }
{
    let mut walk = walk;
    'nodes: while let Some(entry) = walk.next_entry() {
        write_entry(out, scratch, entry)?;
    }
    Ok(())
}

/// Appends the records of all nodes of the store, by their paths. O(their bytes and entries).
pub fn write_nodes(out: &mut Bytes, scratch: &mut Scratch, tree: &Tree) -> Result<(), NoMemory>
    requires { NodesFit tree.now.nodes }
    ensures { OnOk result (out.new ≡ out.old ++ tree_text tree.now.gens tree.now.nodes) }
{
    tree.is_kept();
    write_walk(out, scratch, tree.walk())
}
