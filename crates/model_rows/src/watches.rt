//! Rows of watches and their events.

ghost use Rattle.std.specs.Prelude.{[], ◌∷◌, ◌++◌, codes};
ghost use Rattle.model_rows.specs.Many.{watches};
ghost use Rattle.xs_model.specs.declared.message.kind.TheConstants.{GET_DOMAIN_PATH, GET_PERMS, INTRODUCE, IS_DOMAIN_INTRODUCED, MKDIR, READ, RELEASE, RM, SET_PERMS, TRANSACTION_END, TRANSACTION_START, WATCH, WRITE};
ghost use Rattle.model_rows.specs.Steps.{Plays, Head, Line, Asks, Hears, Gives, Refuses};

/// The events of a removal: broad at the top, exact below it.
pub fn recursive_removal()
    ensures { Plays (
        Asks 0 WRITE 0 (codes "/a/b|v") (Gives (codes "OK|")) []
        ∷ Asks 0 WATCH 0 (codes "/|t1|") (Gives (codes "OK|")) (codes "/|t1|" ∷ [])
        ∷ Asks 0 WATCH 0 (codes "/a|t2|") (Gives (codes "OK|")) (codes "/a|t2|" ∷ [])
        ∷ Asks 0 WATCH 0 (codes "/a/b|t3|") (Gives (codes "OK|")) (codes "/a/b|t3|" ∷ [])
        ∷ Asks 0 WATCH 0 (codes "/a/c|t4|") (Gives (codes "OK|")) (codes "/a/c|t4|" ∷ [])
        ∷ Asks 0 WATCH 0 (codes "/|t1|") (Refuses (codes "EEXIST")) []
        ∷ Asks 0 RM 0 (codes "/a|") (Gives (codes "OK|")) (codes "/a|t1|" ∷ codes "/a|t2|" ∷ codes "/a/b|t3|" ∷ [])
        ∷ Asks 0 RM 0 (codes "/a|") (Gives (codes "OK|")) []
        ∷ []) }
{}

/// Domains come and go, and watches on the special paths hear of it.
pub fn domains_come_and_go()
    ensures { Plays (
        Asks 0 WATCH 0 (codes "@introduceDomain|i|") (Gives (codes "OK|")) (codes "@introduceDomain|i|" ∷ [])
        ∷ Asks 0 INTRODUCE 0 (codes "5|1|3|") (Gives (codes "OK|")) (codes "@introduceDomain|i|" ∷ [])
        ∷ Asks 0 INTRODUCE 0 (codes "5|1|4|") (Gives (codes "OK|")) []
        ∷ Asks 0 IS_DOMAIN_INTRODUCED 0 (codes "5|") (Gives (codes "T|")) []
        ∷ Asks 0 GET_DOMAIN_PATH 0 (codes "5|") (Gives (codes "/local/domain/5|")) []
        ∷ Asks 0 RELEASE 0 (codes "5|") (Gives (codes "OK|")) []
        ∷ Line (codes "intake 5 1") (codes "intake 5 gone")
        ∷ Line (codes "take 5 1") (codes "take 5 -")
        ∷ Line (codes "put 6 1") (codes "put 6 gone")
        ∷ []) }
{}

/// A frontend publishes its ring in a transaction, and the toolstack hears of its state.
pub fn device_hand_shake()
    ensures { Plays (
        Head (codes "domain 1 at 0")
        ∷ Asks 0 MKDIR 0 (codes "/local/domain/1/device/vif/0|") (Gives (codes "OK|")) []
        ∷ Asks 0 SET_PERMS 0 (codes "/local/domain/1/device/vif/0|n1|r0|") (Gives (codes "OK|")) []
        ∷ Asks 0 WATCH 0 (codes "/local/domain/1/device/vif/0/state|fe|") (Gives (codes "OK|")) (codes "/local/domain/1/device/vif/0/state|fe|" ∷ [])
        ∷ Asks 1 TRANSACTION_START 0 (codes "|") (Gives (codes "1|")) []
        ∷ Asks 1 WRITE 1 (codes "device/vif/0/ring-ref|8") (Gives (codes "OK|")) []
        ∷ Asks 1 WRITE 1 (codes "device/vif/0/event-channel|9") (Gives (codes "OK|")) []
        ∷ Asks 1 WRITE 1 (codes "device/vif/0/state|3") (Gives (codes "OK|")) []
        ∷ Asks 1 TRANSACTION_END 1 (codes "T|") (Gives (codes "OK|")) []
        ∷ Hears 0 (codes "/local/domain/1/device/vif/0/state|fe|" ∷ [])
        ∷ Asks 0 READ 0 (codes "/local/domain/1/device/vif/0/state|") (Gives (codes "3")) []
        ∷ Asks 1 GET_PERMS 0 (codes "device/vif/0/state|") (Gives (codes "n1|r0|")) []
        ∷ []) }
{}

/// A guest has 128 watches at the most.
pub fn watches_and_one_more()
    ensures { Plays (Head (codes "domain 5 at 0") ∷ watches 1 128
        ++ Asks 5 WATCH 0 (codes "/|more|") (Refuses (codes "E2BIG")) [] ∷ []) }
{}
