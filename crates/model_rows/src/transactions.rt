//! Rows of transactions and their conflicts.

ghost use Rattle.std.specs.Prelude.{[], ◌∷◌, codes};
ghost use Rattle.xs_model.specs.declared.message.kind.TheConstants.{DIRECTORY, MKDIR, READ, TRANSACTION_END, TRANSACTION_START, WRITE};
ghost use Rattle.model_rows.specs.Steps.{Plays, Head, Asks, Gives, Refuses};

/// A value that is written again counts as a change, and a number is open once.
pub fn equal_value()
    ensures { Plays (
        Asks 0 WRITE 0 (codes "/a|x") (Gives (codes "OK|")) []
        ∷ Asks 0 TRANSACTION_START 0 (codes "|") (Gives (codes "1|")) []
        ∷ Asks 0 READ 1 (codes "/a|") (Gives (codes "x")) []
        ∷ Asks 0 WRITE 0 (codes "/a|x") (Gives (codes "OK|")) []
        ∷ Asks 0 TRANSACTION_END 1 (codes "T|") (Refuses (codes "EAGAIN")) []
        ∷ Asks 0 TRANSACTION_END 1 (codes "T|") (Refuses (codes "ENOENT")) []
        ∷ []) }
{}

/// Two creators under one parent conflict.
pub fn child_list()
    ensures { Plays (
        Asks 0 MKDIR 0 (codes "/d|") (Gives (codes "OK|")) []
        ∷ Asks 0 TRANSACTION_START 0 (codes "|") (Gives (codes "1|")) []
        ∷ Asks 0 TRANSACTION_START 0 (codes "|") (Gives (codes "2|")) []
        ∷ Asks 0 WRITE 1 (codes "/d/x|1") (Gives (codes "OK|")) []
        ∷ Asks 0 WRITE 2 (codes "/d/y|1") (Gives (codes "OK|")) []
        ∷ Asks 0 TRANSACTION_END 1 (codes "T|") (Gives (codes "OK|")) []
        ∷ Asks 0 TRANSACTION_END 2 (codes "T|") (Refuses (codes "EAGAIN")) []
        ∷ Asks 0 DIRECTORY 0 (codes "/d|") (Gives (codes "x|")) []
        ∷ []) }
{}

/// A look at an absent path conflicts with its creation above.
pub fn absent_path_read()
    ensures { Plays (
        Asks 0 TRANSACTION_START 0 (codes "|") (Gives (codes "1|")) []
        ∷ Asks 0 READ 1 (codes "/q/r|") (Refuses (codes "ENOENT")) []
        ∷ Asks 0 MKDIR 0 (codes "/q|") (Gives (codes "OK|")) []
        ∷ Asks 0 TRANSACTION_END 1 (codes "T|") (Refuses (codes "EAGAIN")) []
        ∷ []) }
{}

/// A transaction that accessed nothing commits.
pub fn nothing_accessed()
    ensures { Plays (
        Asks 0 TRANSACTION_START 0 (codes "|") (Gives (codes "1|")) []
        ∷ Asks 0 WRITE 0 (codes "/a|x") (Gives (codes "OK|")) []
        ∷ Asks 0 TRANSACTION_END 1 (codes "T|") (Gives (codes "OK|")) []
        ∷ Asks 0 TRANSACTION_START 0 (codes "|") (Gives (codes "1|")) []
        ∷ []) }
{}

/// A guest has ten transactions open at the most, and the least free number is given again.
pub fn ten_and_a_number_again()
    ensures { Plays (
        Head (codes "domain 5 at 0")
        ∷ Asks 5 TRANSACTION_START 0 (codes "|") (Gives (codes "1|")) []
        ∷ Asks 5 TRANSACTION_START 0 (codes "|") (Gives (codes "2|")) []
        ∷ Asks 5 TRANSACTION_START 0 (codes "|") (Gives (codes "3|")) []
        ∷ Asks 5 TRANSACTION_START 0 (codes "|") (Gives (codes "4|")) []
        ∷ Asks 5 TRANSACTION_START 0 (codes "|") (Gives (codes "5|")) []
        ∷ Asks 5 TRANSACTION_START 0 (codes "|") (Gives (codes "6|")) []
        ∷ Asks 5 TRANSACTION_START 0 (codes "|") (Gives (codes "7|")) []
        ∷ Asks 5 TRANSACTION_START 0 (codes "|") (Gives (codes "8|")) []
        ∷ Asks 5 TRANSACTION_START 0 (codes "|") (Gives (codes "9|")) []
        ∷ Asks 5 TRANSACTION_START 0 (codes "|") (Gives (codes "10|")) []
        ∷ Asks 5 TRANSACTION_START 0 (codes "|") (Refuses (codes "ENOSPC")) []
        ∷ Asks 5 TRANSACTION_END 4 (codes "F|") (Gives (codes "OK|")) []
        ∷ Asks 5 TRANSACTION_START 0 (codes "|") (Gives (codes "4|")) []
        ∷ []) }
{}
