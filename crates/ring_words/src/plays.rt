//! What each step tells its end: its new view, and how large the number found can be.

use crate::view::View;
use atomic_table::{Join, Play, Split};

pub(crate) struct LoadCons;

impl Play<(), View> for LoadCons {
    ghost use Rattle.std.specs.Prelude.{◌≡◌, ◌^◌, ◌<◌};
    ghost use Rattle.ring_words.specs.Steps.{after_load_cons};

    ghost then = { λ _ old found new. (new ≡ (after_load_cons found old.0, old.1)) × (found < 2 ^ 32) };
}

pub(crate) struct StoreByte;

impl Play<(), View> for StoreByte {
    ghost use Rattle.std.specs.Prelude.{◌≡◌};
    ghost use Rattle.ring_words.specs.Steps.{after_store_byte};

    ghost then = { λ _ old stored new. new ≡ (after_store_byte stored old.0, old.1) };
}

pub(crate) struct StoreProd;

impl Play<(), View> for StoreProd {
    ghost use Rattle.std.specs.Prelude.{◌≡◌};
    ghost use Rattle.ring_words.specs.Steps.{after_store_prod};

    ghost then = { λ _ old _ new. new ≡ (after_store_prod old.0, old.1) };
}

pub(crate) struct StoreNote;

impl Play<(), View> for StoreNote {
    ghost use Rattle.std.specs.Prelude.{◌≡◌};
    ghost use Rattle.ring_words.specs.Steps.{after_store_note};

    ghost then = { λ _ old stored new. new ≡ (after_store_note stored old.0, old.1) };
}

pub(crate) struct LoadProd;

impl Play<(), View> for LoadProd {
    ghost use Rattle.std.specs.Prelude.{◌≡◌, ◌^◌, ◌<◌};
    ghost use Rattle.ring_words.specs.Steps.{after_load_prod};

    ghost then = { λ _ old found new. (new ≡ (after_load_prod found old.0, old.1)) × (found < 2 ^ 32) };
}

pub(crate) struct LoadByte;

impl Play<(), View> for LoadByte {
    ghost use Rattle.std.specs.Prelude.{◌≡◌, ◌<◌};
    ghost use Rattle.ring_words.specs.Steps.{after_load_byte};

    ghost then = { λ _ old found new. (new ≡ (after_load_byte found old.0, old.1)) × (found < 256) };
}

pub(crate) struct StoreCons;

impl Play<(), View> for StoreCons {
    ghost use Rattle.std.specs.Prelude.{◌≡◌};
    ghost use Rattle.ring_words.specs.Steps.{after_store_cons};

    ghost then = { λ _ old _ new. new ≡ (after_store_cons old.0, old.1) };
}

pub(crate) struct LoadNote;

impl Play<(), View> for LoadNote {
    ghost use Rattle.std.specs.Prelude.{◌≡◌};
    ghost use Rattle.ring_words.specs.Steps.{after_load_note};

    ghost then = { λ _ old found new. new ≡ (after_load_note found old.0, old.1) };
}

pub(crate) struct Poke;

impl Play<(), View> for Poke {
    ghost use Rattle.std.specs.Prelude.{◌≡◌};
    ghost use Rattle.ring_words.specs.Steps.{after_poke};

    ghost then = { λ _ old _ new. new ≡ (after_poke old.0, old.1) };
}

/// The one view of a new ring is cut into those of the two ends.
pub(crate) struct Open;

impl Split<View> for Open {
    ghost use Rattle.ring_words.specs.Views.{with_role};
    ghost use Rattle.ring_words.specs.declared.view.Role.TheVariants.{Producer, Consumer};

    ghost left = { with_role Producer };

    ghost right = { with_role Consumer };
}

/// The views of the two ends are joined.
pub(crate) struct Shut;

impl Join<View> for Shut {
    ghost use Rattle.ring_words.specs.Views as views;

    ghost both = { views.closed };

    ghost spent = { views.spent };
}

/// A closed view is cut into two that are alike: one goes with the ring, the other is kept.
pub(crate) struct Keep;

impl Split<View> for Keep {
    ghost use Rattle.ring_words.specs.Views.{with_role};
    ghost use Rattle.ring_words.specs.declared.view.Role.TheVariants.{Kept};

    ghost left = { with_role Kept };

    ghost right = { with_role Kept };
}
