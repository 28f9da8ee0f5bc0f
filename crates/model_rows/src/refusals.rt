//! Rows of refusals, and of who may do what.

ghost use Rattle.std.specs.Prelude.{[], ◌∷◌, codes};
ghost use Rattle.xs_model.specs.declared.message.kind.TheConstants.{DIRECTORY, GET_PERMS, MKDIR, READ, RELEASE, SET_PERMS, SET_TARGET, WRITE};
ghost use Rattle.model_rows.specs.Steps.{Plays, Head, Asks, Gives, Refuses};

/// The checks come in their order: payload, caller, transaction, command.
pub fn refusal_order()
    ensures { Plays (
        Head (codes "domain 5 at 0")
        ∷ Asks 5 READ 0 (codes "/x|") (Refuses (codes "EACCES")) []
        ∷ Asks 0 READ 0 (codes "/x|") (Refuses (codes "ENOENT")) []
        ∷ Asks 0 READ 9 (codes "/x") (Refuses (codes "EINVAL")) []
        ∷ Asks 0 READ 9 (codes "/x|") (Refuses (codes "ENOENT")) []
        ∷ Asks 5 RELEASE 0 (codes "7|") (Refuses (codes "EACCES")) []
        ∷ Asks 0 RELEASE 0 (codes "7|") (Refuses (codes "ENOENT")) []
        ∷ Asks 0 20 0 [] (Refuses (codes "ENOSYS")) []
        ∷ Asks 0 DIRECTORY 0 (codes "/|") (Gives []) []
        ∷ []) }
{}

/// A domain that stands for another has its rights.
pub fn target_gives_rights()
    ensures { Plays (
        Head (codes "domain 5 at 0")
        ∷ Head (codes "domain 6 at 0")
        ∷ Asks 0 WRITE 0 (codes "/t|v") (Gives (codes "OK|")) []
        ∷ Asks 0 SET_PERMS 0 (codes "/t|n6|") (Gives (codes "OK|")) []
        ∷ Asks 5 READ 0 (codes "/t|") (Refuses (codes "EACCES")) []
        ∷ Asks 0 SET_TARGET 0 (codes "5|6|") (Gives (codes "OK|")) []
        ∷ Asks 5 READ 0 (codes "/t|") (Gives (codes "v")) []
        ∷ []) }
{}

/// A guest owns what it creates, and may not give it away.
pub fn guest_owns_what_it_creates()
    ensures { Plays (
        Head (codes "domain 5 at 0")
        ∷ Asks 0 SET_PERMS 0 (codes "/|b0|") (Gives (codes "OK|")) []
        ∷ Asks 5 MKDIR 0 (codes "/m|") (Gives (codes "OK|")) []
        ∷ Asks 5 GET_PERMS 0 (codes "/m|") (Gives (codes "b5|")) []
        ∷ Asks 5 SET_PERMS 0 (codes "/m|n6|") (Refuses (codes "EACCES")) []
        ∷ []) }
{}
