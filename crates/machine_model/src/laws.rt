//! What follows from the definitions, in the words of the subject. A law is a function that does
//! nothing: its clause is the law, and its proof is the proof of the law.

ghost use Rattle.machine_model.specs.Laws.{EachTreeIsOne, CommitsAreSerial, FollowedRunsAreSerial, RunsKeepFollowed, EachRequestHasOneReply, StrangersHaveNoReply, EachEventIsDue, DropsTouchNobodyElse, ConnectionsKeepLimits, ConnectionsHaveIds, NextConnectionIsFree, StartGivesLeastFree, EachMessageIsWhole, SizedStoresSendWhole, RunsKeepSized, EachPathIsShort};

/// In every state that a run from a new store reaches, the tree holds `/` and the parent of each of
/// its other paths. So do the copy of each open transaction, and the tree that it sees.
pub fn each_tree_is_one()
    ensures { EachTreeIsOne }
{}

/// In every state of a run, a transaction that is not in conflict would get of the current tree what
/// it got of its copy: the same replies and the same written paths, and the same node, or none, at
/// each path that it accessed. So a commit has the effect of a transaction that ran at its end alone.
///
/// This holds of a run from a new store, and of one from any store in the state that runs keep, where
/// transactions may have come from a migration stream.
pub fn commits_are_serial()
    ensures from_new { CommitsAreSerial }
    ensures from_followed { FollowedRunsAreSerial }
    ensures kept { RunsKeepFollowed }
{}

/// A request of a connection that is there is answered by exactly one reply, to that connection, with
/// the request's own req_id and tx_id. Its type is the request's or ERROR, and it stands before all
/// events that the same step sends. A request of a connection that is not there does nothing.
pub fn each_request_has_one_reply()
    ensures there { EachRequestHasOneReply }
    ensures gone { StrangersHaveNoReply }
{}

/// An event of a change goes to a connection for a watch that it has, where the watch is on the event's
/// path (or above it, where the event is broad), and where the connection may read the node: as it is
/// after the change, or as it was before it where it is gone. Events of the special paths go to
/// connections that act for domain 0 alone. Any other event is the first one of a watch just made.
pub fn each_event_is_due()
    ensures { EachEventIsDue }
{}

/// The loss of a connection sends nothing, and leaves the tree and every other connection as they
/// were, with its watches and transactions.
pub fn drops_touch_nobody_else()
    ensures { DropsTouchNobodyElse }
{}

/// In every state of a run from a new store, a guest has at most 10 open transactions and 128 watches,
/// and a connection that acts for domain 0 at most 65535 open transactions. Their ids are positive, and
/// each stands once.
pub fn connections_keep_limits()
    ensures { ConnectionsKeepLimits }
{}

/// The ids of connections are positive, and each stands once. A connection that INTRODUCE makes gets
/// the least positive id that no connection has.
pub fn connections_have_ids()
    ensures ids { ConnectionsHaveIds }
    ensures next { NextConnectionIsFree }
{}

/// TRANSACTION_START gives the least positive id that its connection has not open.
pub fn start_gives_least_free()
    ensures { StartGivesLeastFree }
{}

/// Each message that a step sends, reply or event, has at most 4096 bytes of payload, and its bytes are
/// one whole message: a header of 16 bytes and as many more as the header says.
///
/// This holds in every state of a run from a new store, and in any store whose paths, watches and
/// tokens are within their limits; runs keep them so.
pub fn each_message_is_whole()
    ensures from_new { EachMessageIsWhole }
    ensures from_sized { SizedStoresSendWhole }
    ensures kept { RunsKeepSized }
{}

/// The text of each path of a tree that a run from a new store reaches has at most 3072 bytes.
pub fn each_path_is_short()
    ensures { EachPathIsShort }
{}
