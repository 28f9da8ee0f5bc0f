//! What follows from the definitions, in the words of the subject. A law is a function that does
//! nothing: its clause is the law, and its proof is the proof of the law.

ghost use Rattle.xs_model.specs.Laws.{PathOrderIsTextOrder, SpelledPathsHaveNames, PathsBelowStandTogether, PathsStandBeforeThoseBelow, EachCommandKeepsTrees, SpelledPathsAreShort, EachCommandKeepsPathsShort, EachReplyIsShort, DataIsForReaders, RefusalsChangeNothing};

/// The order of paths is the order of their texts, with the slash below every other byte: of all paths
/// whose names have a byte or more and no slash, as those have that bytes of a request spell.
pub fn path_order_is_text_order()
    ensures texts { PathOrderIsTextOrder }
    ensures names { SpelledPathsHaveNames }
{}

/// In that order the paths at and below a path stand together, and it is the first of them.
pub fn paths_below_stand_together()
    ensures between { PathsBelowStandTogether }
    ensures first { PathsStandBeforeThoseBelow }
{}

/// A tree holds `/` and the parent of each of its other paths, and it still does so after any of the
/// tree commands, whatever the answer was.
pub fn each_command_keeps_trees()
    ensures { EachCommandKeepsTrees }
{}

/// The text of each path that bytes of a request spell has at most 3072 bytes, a relative one's with its
/// domain's home before it. A command at such a path on a tree of such paths leaves a tree of such
/// paths.
pub fn paths_are_short()
    ensures spelled { SpelledPathsAreShort }
    ensures kept { EachCommandKeepsPathsShort }
{}

/// A command's reply has at most 4096 bytes of payload.
pub fn each_reply_is_short()
    ensures { EachReplyIsShort }
{}

/// What READ, DIRECTORY and GET_PERMS give is the value, the children or the entries of the node at
/// their path, and they give it only to a caller that may read that node.
pub fn data_is_for_readers()
    ensures { DataIsForReaders }
{}

/// A command that is refused leaves the tree as it was.
pub fn refusals_change_nothing()
    ensures { RefusalsChangeNothing }
{}
