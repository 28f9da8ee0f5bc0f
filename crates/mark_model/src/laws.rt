//! What joins marks to the sequential store. A law is a function that does nothing: its clause is the law, and its proof
//! is the proof of the law.

ghost use Rattle.mark_model.specs.Laws.{StartKeepsNothing, CommandsMark, OthersAreNoted, MarksShowWhatIsSeen, ConflictsAgree, CommitsAgree, MarksKnowWhatWasWritten, OpenIsOver, BegunKeepsMarks, BegunKeepsCount, BegunIsOpen, StepsAreKept, FollowedIsKept, BegunKeepsStore, BegunIsFollowed, StepsKeepStores, EditsGoThroughMarks, SamePathsAreSameChange};

/// A transaction that was just started keeps no marks. A command in it writes its edits and marks what it looked at, and a
/// change by others is noted with what stood there. The marks are rising, and what others changed does not show.
pub fn marks_follow_transactions()
    ensures start { StartKeepsNothing }
    ensures command { CommandsMark }
    ensures others { OthersAreNoted }
    ensures over { OpenIsOver }
{}

/// A transaction sees the current tree with its marks, is in conflict exactly where its marks say so, and where it is not,
/// the marks make of the tree what its commands would.
pub fn marks_tell_what_transactions_do()
    ensures seen { MarksShowWhatIsSeen }
    ensures conflict { ConflictsAgree }
    ensures commit { CommitsAgree }
    ensures written { MarksKnowWhatWasWritten }
{}

/// The transaction with which marks over a tree go on keeps these marks and this count, and is open over the tree.
pub fn marks_go_on()
    ensures marks { BegunKeepsMarks }
    ensures count { BegunKeepsCount }
    ensures open { BegunIsOpen }
{}

/// A step of the sequential store is a step of the store that is kept, and sends the same.
pub fn steps_are_kept()
    ensures step { StepsAreKept }
    ensures kept { FollowedIsKept }
{}

/// A store that is kept goes on as a sequential store, of which the same is kept, and each of its steps leaves a store of
/// the kind.
pub fn stores_go_on()
    ensures store { BegunKeepsStore }
    ensures followed { BegunIsFollowed }
    ensures steps { StepsKeepStores }
{}

/// A change may go through marks of its own, and tell its paths in any order.
pub fn changes_go_through_marks()
    ensures edits { EditsGoThroughMarks }
    ensures same { SamePathsAreSameChange }
{}
