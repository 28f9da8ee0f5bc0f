//! Whether a node is as it was.

ghost use Rattle.std.specs.Prelude.{◌≡◌, ◌==◌, ◌&&◌, Some};
ghost use Rattle.std.specs.Option.{option_copied};
ghost use Rattle.std.specs.Str.{bytes_eq};
ghost use Rattle.kept_model.specs.Normal.{same_perm, same_perms, same_found};

use node_tree::Node;
use xs_perms::Perm;

/// Whether the same node was found twice, or none. Costs O(bytes and entries).
pub fn same_found(found: Option<&Node>, other: Option<&Node>) -> bool
    ensures { result ≡ same_found (option_copied found.entry) (option_copied other.entry) }
{
    match found {
        None => other.is_none(),
        Some(node) => is_node(node, other),
    }
}

/// Whether this node was found.
fn is_node(node: &Node, other: Option<&Node>) -> bool
    ensures { result ≡ same_found (Some node.now) (option_copied other.entry) }
{
    match other {
        None => false,
        Some(other) => same_node(node, other),
    }
}

fn same_node(node: &Node, other: &Node) -> bool
    ensures { result ≡ (bytes_eq node.now.value other.now.value && same_perms node.now.perms other.now.perms) }
{
    node.value == other.value && same_perms(node.perms.as_slice(), other.perms.as_slice())
}

fn same_perms(perms: &[Perm], others: &[Perm]) -> bool
    ensures { result ≡ same_perms perms.now others.now }
{
    perms == others
}
