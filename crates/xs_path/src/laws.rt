//! Laws over the definitions of paths. Each is the contract of a function that does nothing.

ghost use Rattle.std.specs.Prelude.{◌≡◌, ℕ, true, List};
ghost use Rattle.xs_model.specs.Paths.{path_cmp, absolute_path, is_absolute};
ghost use Rattle.xs_model.specs.Laws.{text_cmp};

/// Paths stand in the order of their texts, if a slash counts below every other byte.
pub fn path_order_is_text_order()
    ensures { (a b : List ℕ) → is_absolute a ≡ true → is_absolute b ≡ true
        → path_cmp (absolute_path a) (absolute_path b) ≡ text_cmp a b }
{}
