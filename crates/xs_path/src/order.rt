//! The order of paths, which is the order of their texts with a slash below every other byte.

ghost use Rattle.std.specs.Prelude.{◌≡◌};
ghost use Rattle.xs_model.specs.Laws.{byte_rank, text_cmp};

use crate::Path;
use std::cmp::Ordering;

/// The place of a byte in the order of texts.
fn byte_rank(byte: u8) -> u16
    ensures { result ≡ byte_rank byte }
{
    if byte == b'/' { 0 } else { u16::from(byte) + 1 }
}

/// Compares two texts at the first place where they differ.
fn compare(a: &[u8], b: &[u8]) -> Ordering
    ensures { result ≡ text_cmp a.now b.now }
{
    let shared = a.len().min(b.len());
    for at in 0..shared {
        if a[at] != b[at] {
            return byte_rank(a[at]).cmp(&byte_rank(b[at]));
        }
    }
    a.len().cmp(&b.len())
}

impl PartialEq for Path {
    ghost use Rattle.std.specs.Ordering.{eq_by_cmp};
    ghost use Rattle.std.specs.Cmp.{partial_equiv_from_equiv, eq_by_cmp_equiv};
    ghost use Rattle.std.specs.Cmp.Lexicographic.{lists_total, nat_list_cmp_total};
    ghost use Rattle.xs_model.specs.Paths.{path_cmp};

    ghost eq = { eq_by_cmp path_cmp };

    ghost laws = { partial_equiv_from_equiv (eq_by_cmp_equiv (lists_total nat_list_cmp_total)) };

    fn eq(&self, other: &Path) -> bool {
        self.text == other.text
    }
}

impl Eq for Path {
    ghost use Rattle.std.specs.Cmp.{eq_by_cmp_equiv};
    ghost use Rattle.std.specs.Cmp.Lexicographic.{lists_total, nat_list_cmp_total};

    ghost laws = { eq_by_cmp_equiv (lists_total nat_list_cmp_total) };
}

impl PartialOrd for Path {
    ghost use Rattle.std.specs.Prelude.{Some};
    ghost use Rattle.std.specs.Cmp.{partial_order_from_total};
    ghost use Rattle.std.specs.Cmp.Lexicographic.{lists_total, nat_list_cmp_total};
    ghost use Rattle.xs_model.specs.Paths.{path_cmp};

    ghost partial_cmp = { λ p q. Some (path_cmp p q) };

    ghost laws = { partial_order_from_total (lists_total nat_list_cmp_total) };

    fn partial_cmp(&self, other: &Path) -> Option<Ordering> {
        Some(self.cmp(other))
    }
}

impl Ord for Path {
    ghost use Rattle.std.specs.Prelude.{refl};
    ghost use Rattle.std.specs.Cmp.Lexicographic.{lists_total, nat_list_cmp_total};
    ghost use Rattle.xs_model.specs.Paths.{path_cmp};

    ghost cmp = { path_cmp };

    ghost total = { lists_total nat_list_cmp_total };

    ghost matches_partial_cmp = { λ p q. refl };

    ghost matches_eq = { λ p q. refl };

    fn cmp(&self, other: &Path) -> Ordering {
        compare(&self.text, &other.text)
    }
}
