//! Laws of worlds and states. A law is a function that does nothing: its clause is the law, and its proof is the proof of
//! the law.

ghost use Rattle.world_states.specs.Laws.{BegunWorldsKeep, BegunWorldsStart};

/// What the world that goes on from a sound state keeps is that state.
pub fn begun_worlds_keep()
    ensures { BegunWorldsKeep }
{}

/// A world that goes on from a sound state is one from which runs may start, also with the head lines of a script.
pub fn begun_worlds_start()
    ensures { BegunWorldsStart }
{}
