//! Rows of directories that are read in parts, and of the numbers that they show.

ghost use Rattle.std.specs.Prelude.{[], ◌∷◌, codes};
ghost use Rattle.xs_model.specs.declared.message.kind.TheConstants.{DIRECTORY_PART, MKDIR, READ, RM, SET_PERMS, TRANSACTION_END, TRANSACTION_START, WRITE};
ghost use Rattle.model_rows.specs.Steps.{Plays, Head, Line, Asks, Gives, Refuses};

/// A part begins at its offset, and an empty name ends the last one. The number grows with each child that comes.
pub fn parts_of_a_directory()
    ensures { Plays (
        Asks 0 MKDIR 0 (codes "/d|") (Gives (codes "OK|")) []
        ∷ Asks 0 WRITE 0 (codes "/d/x|1") (Gives (codes "OK|")) []
        ∷ Asks 0 WRITE 0 (codes "/d/y|1") (Gives (codes "OK|")) []
        ∷ Asks 0 DIRECTORY_PART 0 (codes "/d|0|") (Gives (codes "3|x|y||")) []
        ∷ Asks 0 DIRECTORY_PART 0 (codes "/d|2") (Gives (codes "3|y||")) []
        ∷ Asks 0 DIRECTORY_PART 0 (codes "/d|4|") (Gives (codes "3||")) []
        ∷ Asks 0 DIRECTORY_PART 0 (codes "/d|5|") (Refuses (codes "EINVAL")) []
        ∷ Asks 0 DIRECTORY_PART 0 (codes "/|0|") (Gives (codes "1|d||")) []
        ∷ []) }
{}

/// In a transaction the number counts what it did, and its commit is one change, also over a handover.
pub fn parts_in_a_transaction()
    ensures { Plays (
        Asks 0 MKDIR 0 (codes "/d|") (Gives (codes "OK|")) []
        ∷ Asks 0 WRITE 0 (codes "/d/x|1") (Gives (codes "OK|")) []
        ∷ Asks 0 WRITE 0 (codes "/d/y|1") (Gives (codes "OK|")) []
        ∷ Asks 0 TRANSACTION_START 0 (codes "|") (Gives (codes "1|")) []
        ∷ Asks 0 DIRECTORY_PART 1 (codes "/d|0|") (Gives (codes "0|x|y||")) []
        ∷ Asks 0 WRITE 1 (codes "/d/z|1") (Gives (codes "OK|")) []
        ∷ Line (codes "handover") (codes "handover new")
        ∷ Asks 0 DIRECTORY_PART 1 (codes "/d|0|") (Gives (codes "1|x|y|z||")) []
        ∷ Asks 0 TRANSACTION_END 1 (codes "T|") (Gives (codes "OK|")) []
        ∷ Asks 0 DIRECTORY_PART 0 (codes "/d|0|") (Gives (codes "4|x|y|z||")) []
        ∷ []) }
{}

/// Who may not read a node is told so before its offset is looked at; a path that is absent is refused as for READ.
pub fn parts_are_refused()
    ensures { Plays (
        Head (codes "domain 5 at 0")
        ∷ Asks 0 MKDIR 0 (codes "/d|") (Gives (codes "OK|")) []
        ∷ Asks 5 DIRECTORY_PART 0 (codes "/d|9|") (Refuses (codes "EACCES")) []
        ∷ Asks 0 DIRECTORY_PART 0 (codes "/e|0|") (Refuses (codes "ENOENT")) []
        ∷ Asks 0 DIRECTORY_PART 0 (codes "/d|") (Refuses (codes "EINVAL")) []
        ∷ Asks 0 DIRECTORY_PART 0 (codes "/d|0|0|") (Refuses (codes "EINVAL")) []
        ∷ Asks 0 DIRECTORY_PART 0 (codes "/d|18446744073709551616|") (Refuses (codes "EINVAL")) []
        ∷ []) }
{}

/// A change gives its paths one number, a refused request gives none, and a path that comes again has a new one.
pub fn changes_are_numbered()
    ensures { Plays (
        Asks 0 WRITE 0 (codes "/a/b|1") (Gives (codes "OK|")) []
        ∷ Asks 0 DIRECTORY_PART 0 (codes "/a|0|") (Gives (codes "1|b||")) []
        ∷ Asks 0 READ 0 (codes "/c|") (Refuses (codes "ENOENT")) []
        ∷ Asks 0 RM 0 (codes "/|") (Refuses (codes "EINVAL")) []
        ∷ Asks 0 DIRECTORY_PART 0 (codes "/a/b|0|") (Gives (codes "1||")) []
        ∷ Asks 0 RM 0 (codes "/a/b|") (Gives (codes "OK|")) []
        ∷ Asks 0 DIRECTORY_PART 0 (codes "/a|0|") (Gives (codes "2||")) []
        ∷ Asks 0 WRITE 0 (codes "/a/b|1") (Gives (codes "OK|")) []
        ∷ Asks 0 DIRECTORY_PART 0 (codes "/a/b|0|") (Gives (codes "3||")) []
        ∷ Asks 0 SET_PERMS 0 (codes "/a|n0|") (Gives (codes "OK|")) []
        ∷ Asks 0 DIRECTORY_PART 0 (codes "/a/b|0|") (Gives (codes "3||")) []
        ∷ []) }
{}
