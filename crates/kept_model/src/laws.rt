//! What joins states and streams. A law is a function that does nothing: its clause is the law, and its proof is the proof
//! of the law.

ghost use Rattle.std.specs.Prelude.{◌≡◌, Ok};
ghost use Rattle.stream_model.specs.EmptyStore.{empty_store};
ghost use Rattle.kept_model.specs.EmptyState.{empty_state};
ghost use Rattle.kept_model.specs.Images.{records_of};
ghost use Rattle.kept_model.specs.Normal.{state_of_records};
ghost use Rattle.kept_model.specs.Laws.{WhatLoadsIsSound, SoundIsWritable, ImagesLoad, StepsKeepStoresSound};

/// Whatever loads is sound.
pub fn what_loads_is_sound()
    ensures { WhatLoadsIsSound }
{}

/// A sound state can be written, and its image tells that state and no other.
pub fn images_load()
    ensures writable { SoundIsWritable }
    ensures state { ImagesLoad }
{}

/// Each step leaves a sound store sound.
pub fn steps_keep_stores_sound()
    ensures { StepsKeepStoresSound }
{}

/// The worked example: these are the records of an empty store, and they tell it.
pub fn the_empty_store()
    ensures records { records_of empty_state ≡ empty_store }
    ensures state { state_of_records empty_store ≡ Ok empty_state }
{}
