//! The two maps of a table, and their edits.

ghost use Rattle.std.specs.Prelude.{◌≡◌, ◌≤◌, ◌==◌, not, None, is_some, if◌then◌else◌, OnOk, OnErr};
ghost use Rattle.std.specs.FinMap.{find, put};
ghost use Rattle.std.specs.FinMap.Entries.{where_key};
ghost use Rattle.std.specs.Ordering.{nat_cmp};
ghost use Rattle.conn_table.specs.Tables.{is_taken};
ghost use Rattle.conn_table.specs.Kept.{Agrees, has_key, with_ring, without_ring};

use crate::NoMemory;
use id_map::IdMap;
use machine_model::ConnSpec;

/// Whether an id is there, or a ring connection of the same domain.
pub(crate) fn taken_in(specs: &IdMap<ConnSpec>, rings: &IdMap<u32>, id: u32, spec: ConnSpec) -> bool
    requires { Agrees specs.now.entries rings.now.entries }
    ensures { result ≡ is_taken id spec specs.now.entries }
{
    specs.get(id).is_some() || ring_taken_in(rings, spec)
}

/// Whether a domain has a ring connection already, where this is a ring of it.
fn ring_taken_in(rings: &IdMap<u32>, spec: ConnSpec) -> bool
    ensures { result ≡ has_key spec rings.now.entries }
{
    match spec {
        ConnSpec::Ring { domid, .. } => rings.get(u32::from(domid)).is_some(),
        ConnSpec::Socket { .. } => false,
    }
}

/// Adds a connection to both maps. Refused, they are as before: the memory of the second is taken before the first is
/// changed.
pub(crate) fn add_to(
    specs: &mut IdMap<ConnSpec>,
    rings: &mut IdMap<u32>,
    id: u32,
    spec: ConnSpec,
) -> Result<(), NoMemory>
    requires { find nat_cmp id specs.old.entries ≡ None }
    ensures specs { OnOk result (specs.new.entries ≡ put nat_cmp id spec specs.old.entries) }
    ensures rings { OnOk result (rings.new.entries ≡ with_ring spec id rings.old.entries) }
    ensures specs_err { OnErr result (specs.new.entries ≡ specs.old.entries) }
    ensures rings_err { OnErr result (rings.new.entries ≡ rings.old.entries) }
{
    rings.reserve(1)?;
    specs.add(id, spec)?;
    put_ring(rings, id, spec);
    Ok(())
}

/// Gives the domain its ring connection, where this is a ring of it.
fn put_ring(rings: &mut IdMap<u32>, id: u32, spec: ConnSpec)
    requires { 1 ≤ rings.old.spare }
    ensures { rings.new.entries ≡ with_ring spec id rings.old.entries }
{
    if let ConnSpec::Ring { domid, .. } = spec {
        rings.put(u32::from(domid), id);
    }
}

/// Changes the spec of an id, and says whether it was there.
pub(crate) fn set_in(specs: &mut IdMap<ConnSpec>, id: u32, spec: ConnSpec) -> bool
    ensures found { result ≡ is_some (find nat_cmp id specs.old.entries) }
    ensures after { specs.new.entries ≡ (if result then put nat_cmp id spec specs.old.entries else specs.old.entries) }
{
    match specs.get_mut(id) {
        Some(old) => {
            *old = spec;
            true
        }
        None => false,
    }
}

/// Removes a connection from both maps, and says whether it was there.
pub(crate) fn remove_from(specs: &mut IdMap<ConnSpec>, rings: &mut IdMap<u32>, id: u32) -> bool
    ensures found { result ≡ is_some (find nat_cmp id specs.old.entries) }
    ensures specs { specs.new.entries ≡ where_key nat_cmp (λ key. not (id == key)) specs.old.entries }
    ensures rings { rings.new.entries ≡ without_ring (find nat_cmp id specs.old.entries) rings.old.entries }
{
    if let Some(ConnSpec::Ring { domid, .. }) = specs.get(id) {
        rings.remove(u32::from(*domid));
    }
    specs.remove(id)
}
