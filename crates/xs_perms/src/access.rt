//! What entries let a domain do.

ghost use Rattle.std.specs.Prelude.{◌≡◌, true};
ghost use Rattle.xs_model.specs.Perms.{names_caller, letter_for, letter_rights, rights_of};
ghost use Rattle.xs_model.specs.Trees.{has_entry};

use crate::{Letter, Perm, Perms, Rights};

/// What a domain may do with a node that has these entries, and that a second domain may for which it stands, if
/// there is one. Domain 0 may do everything. Else the first entry's domain owns the node, else the first later entry
/// that names one of the two counts, else the first entry's letter. A stale entry names nobody. Costs O(entries).
pub fn rights(perms: &Perms, domid: u16, target: Option<u16>) -> Rights
    requires { has_entry perms.now ≡ true }
    ensures { result ≡ rights_of (record { domid = domid; target = target }) perms.now }
{
    let entries = perms.as_slice();
    let first = entries[0];
    if domid == 0 || names(first, domid, target) {
        return Rights {
            can_read: true,
            can_write: true,
            owner: true,
        };
    }
    letter_rights(letter_for(&entries[1..], first.letter, domid, target))
}

/// Whether an entry names the domain or the one for which it stands.
fn names(entry: Perm, domid: u16, target: Option<u16>) -> bool
    ensures { result ≡ names_caller (record { domid = domid; target = target }) entry }
{
    !entry.stale && (entry.domid == domid || target == Some(entry.domid))
}

/// The letter of the first entry that names the domain or the one for which it stands, or else `default`.
fn letter_for(entries: &[Perm], default: Letter, domid: u16, target: Option<u16>) -> Letter
    ensures { result ≡ letter_for (record { domid = domid; target = target }) default entries.now }
{
    for entry in entries {
        if names(*entry, domid, target) {
            return entry.letter;
        }
    }
    default
}

/// The rights of a letter alone.
fn letter_rights(letter: Letter) -> Rights
    ensures { result ≡ letter_rights letter }
{
    Rights {
        can_read: matches!(letter, Letter::R | Letter::B),
        can_write: matches!(letter, Letter::W | Letter::B),
        owner: false,
    }
}
