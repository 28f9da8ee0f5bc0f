//! Laws on queues of bytes that wait to be sent.

ghost use Rattle.out_queues.specs.Laws.{WrittenIsWhole, StaysQueue, PiecesJoin, WholeLeaveNothing};

/// The bytes of a header, and a payload of the length that it says, are a whole message.
pub fn written_is_whole()
    ensures { WrittenIsWhole }
{}

/// However many bytes leave a queue, what stays is the rest of a message and whole messages behind it.
pub fn stays_queue()
    ensures { StaysQueue }
{}

/// What is left of a message in mid-way does not depend on the pieces in which its bytes left.
pub fn pieces_join()
    ensures { PiecesJoin }
{}

/// Nothing is left in mid-way where whole messages left, whatever follows them.
pub fn whole_leave_nothing()
    ensures { WholeLeaveNothing }
{}
