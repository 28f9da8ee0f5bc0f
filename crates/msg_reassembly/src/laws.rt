//! Laws on bytes that come in pieces.

ghost use Rattle.msg_reassembly.specs.Cuts.{SplitsOneWay, CutsDoNotMatter, IntakeIsMost, IntakeIsTwoSteps};

/// Bytes are their whole messages and then what does not begin with one, and this holds of no other messages.
pub fn splits_one_way()
    ensures { SplitsOneWay }
{}

/// The messages that leave an inbox, and those that are whole in it, are the whole messages of all bytes that
/// came, however these were cut and whenever messages left.
pub fn cuts_do_not_matter()
    ensures { CutsDoNotMatter }
{}

/// An intake is of the most bytes before each of which the front is less than a message.
pub fn intake_is_most()
    ensures { IntakeIsMost }
{}

/// A server takes in as many bytes in two steps, each of at most the inbox's room.
pub fn intake_is_two_steps()
    ensures { IntakeIsTwoSteps }
{}
