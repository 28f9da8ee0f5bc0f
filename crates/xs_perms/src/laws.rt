//! Laws over the definitions of entries. Each is the contract of a function that does nothing.

ghost use Rattle.std.specs.Prelude.{◌≡◌, ◌^◌, ◌<◌, false};
ghost use Rattle.xs_model.specs.declared.perm.Perm.{Perm};
ghost use Rattle.xs_model.specs.Perms.{perm_of, perm_text};

use xs_base::laws;

/// What is printed of an entry that is not stale is read as this entry.
pub fn entries_read_back()
    ensures { (perm : Perm) → perm.stale ≡ false → perm.domid < 2 ^ 16 → perm_of (perm_text perm) ≡ Ok perm }
{
    laws::decimal_reads_back();
}
