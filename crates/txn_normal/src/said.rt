//! What a record says of a path.

ghost use Rattle.std.specs.Prelude.{◌≡◌};
ghost use Rattle.std.specs.Option.{option_map};
ghost use Rattle.kept_model.specs.Said as model;
ghost use Rattle.kept_model.specs.Said.{access_by, access_of, said_by};
ghost use Rattle.txn_normal.specs.Views.{access_view, said_view};

use node_tree::Node;
use std::marker::Model;

/// The number of an access of no command, where others changed the path.
const UNTOUCHED: u16 = 49152;

/// From this number on, others changed the path.
const OTHERS: u16 = 32768;

/// What the commands of a transaction did at a path, and whether others changed it.
#[derive(Clone, Copy, Debug, PartialEq, Eq)]
pub enum Access {
    /// They looked at it.
    Looked { others: bool },
    /// They gave it a node.
    Gave { others: bool },
    /// They removed it.
    Removed { others: bool },
    /// They did nothing, and others changed it.
    Untouched,
}

impl Access {
    /// The access that a record's number stands for, if there is one. O(1).
    pub fn of(number: u16) -> Option<Access>
        ensures { option_map access_view result ≡ access_of number }
    {
        if number == UNTOUCHED {
            return Some(Access::Untouched);
        }
        access_by(OTHERS <= number, number % OTHERS)
    }
}

/// The access that the lower bits stand for.
fn access_by(others: bool, low: u16) -> Option<Access>
    ensures { option_map access_view result ≡ access_by others low }
{
    match low {
        0 => Some(Access::Removed { others }),
        1 => Some(Access::Looked { others }),
        2 => Some(Access::Gave { others }),
        3 => Some(Access::Gave { others }),
        _ => None,
    }
}

/// What is said of a path, as it is kept.
#[derive(Debug, Drop)]
pub enum Fact {
    /// Commands looked at it and found this, and nobody is said to have changed it.
    Saw(Option<Node>),
    /// They looked at it, and others changed it: what stood there.
    Changed(Option<Node>),
    /// They gave it this node.
    Wrote { others: bool, node: Node },
    /// They removed it.
    Gone { others: bool },
    /// Others changed it, and no command looked at it: what stood there.
    Kept(Option<Node>),
}

/// What is said of a path of a transaction: how it is marked, or what its commands found there.
#[derive(Debug, Drop)]
pub struct Said {
    pub(crate) fact: Fact,
}

impl Model for Said {
    ghost use Rattle.kept_model.specs.Said.{Said};
    ghost use Rattle.txn_normal.specs.Views.{said_view};

    ghost Value = { Said };

    ghost view = { λ said. said_view said.fact };
}

impl Said {
    /// What is said by an access, and by the node that was found or given, or none. A removal tells of no node, and
    /// where one was given and there is none, it counts as removed. O(1).
    pub fn by(access: Access, found: Option<Node>) -> Said
        ensures { result ≡ said_by (access_view access) found }
    {
        Said {
            fact: fact_by(access, found),
        }
    }
}

fn fact_by(access: Access, found: Option<Node>) -> Fact
    ensures { said_view result ≡ said_by (access_view access) found }
{
    match access {
        Access::Looked { others } => looked(others, found),
        Access::Gave { others } => gave(others, found),
        Access::Removed { others } => Fact::Gone { others },
        Access::Untouched => Fact::Kept(found),
    }
}

fn looked(others: bool, found: Option<Node>) -> Fact
    ensures { said_view result ≡ said_by (model.Looked others) found }
{
    if others {
        Fact::Changed(found)
    } else {
        Fact::Saw(found)
    }
}

fn gave(others: bool, found: Option<Node>) -> Fact
    ensures { said_view result ≡ said_by (model.Gave others) found }
{
    match found {
        Some(node) => Fact::Wrote { others, node },
        None => Fact::Gone { others },
    }
}
