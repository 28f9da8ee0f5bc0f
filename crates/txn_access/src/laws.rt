//! What holds of the definitions.

ghost use Rattle.std.specs.Prelude.{◌≡◌, Some};
ghost use Rattle.mark_model.specs.Marks.{Mark, is_changed};
ghost use Rattle.txn_access.specs.Entries.{kind_of, node_of, mark_by, FitsKind};

/// What is told of a mark makes that mark again. It does nothing.
pub fn told_marks_are_whole()
    ensures fits { (m : Mark) → FitsKind (kind_of m) (is_changed (Some m)) (node_of m) }
    ensures same { (m : Mark) → mark_by (kind_of m) (is_changed (Some m)) (node_of m) ≡ m }
{}
