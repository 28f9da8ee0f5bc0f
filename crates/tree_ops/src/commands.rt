//! One command.

ghost use Rattle.std.specs.Prelude.{◌≡◌, ◌≤◌, ◌∷◌, [], true, ℕ, Option, length, IfOk, OnOk, OnErr};
ghost use Rattle.xs_model.specs.Paths.{Path as Place, way_down};
ghost use Rattle.xs_model.specs.Trees.{IsTree, is_present, all_below};
ghost use Rattle.xs_model.specs.Commands.{command as model_command, command_edits, answer, permitted, sight_of, nearest_of, absent_of};
ghost use Rattle.wire_codec.specs.Codec.{IsInForm, operation_of};
ghost use Rattle.tree_ops.specs.Answers.{answer_of, seen};
ghost use Rattle.tree_ops.specs.Outcomes.{IsOutcome};

use crate::answer::Answer;
use crate::did::Did;
use crate::look::{from_place, look, present};
use crate::{edits, parts, reading, removing, writing};
use node_tree::{Node, View};
use std::alloc::Global;
use wire_codec::{TreeCommand, TreeOp};
use xs_base::NoMemory;
use xs_path::Path;
use xs_perms::{Rights, rights};

/// Does one command of a domain, which may stand for a second one besides, its target. The number is what
/// DIRECTORY_PART shows, and no other command looks at it. Refused for want of memory, the nodes are as before, and
/// nothing was made of the view.
///
/// Each look-up costs O(log nodes) comparisons of paths. Every command looks its path up, and where that is absent
/// O(log names) of those above it; besides, DIRECTORY looks each child up until the reply is full, DIRECTORY_PART also
/// each one before its offset, and RM at most twice each node that it removes.
pub fn run<V: View>(
    alloc: Global,
    command: &TreeCommand,
    domid: u16,
    target: Option<u16>,
    number: u64,
    view: &mut V,
) -> Result<Did, NoMemory>
    requires { IsInForm command.now }
    ensures ok { IfOk result (λ did. IsOutcome (model_command (operation_of command.now.op) command.now.path (record { domid = domid; target = target }) number (V.nodes view.old)) did (V.nodes view.new)) }
    ensures short { IfOk result (λ did. IfOk did.reply (λ payload. length payload ≤ 4096)) }
    ensures made { OnOk result (V.made view.old (command_edits (operation_of command.now.op) command.now.path (record { domid = domid; target = target }) number (V.nodes view.old)) view.new) }
    ensures err { OnErr result (V.nodes view.new ≡ V.nodes view.old) }
    ensures made_err { OnErr result (V.made view.old [] view.new) }
{
    let touched = look(alloc, view, &command.path)?;
    let answer = answered(
        alloc,
        command,
        domid,
        target,
        number,
        view,
        touched.as_slice(),
    )?;
    let written = edits::written(alloc, &answer.edits)?;
    let Answer { reply, edits } = answer;
    edits::make(view, edits)?;
    Ok(Did {
        reply,
        touched,
        written,
    })
}

/// What a command answers, by the nearest present path at or above its own and the absent ones between.
fn answered<V: View>(
    alloc: Global,
    command: &TreeCommand,
    domid: u16,
    target: Option<u16>,
    number: u64,
    view: &V,
    way: &[Path],
) -> Result<Answer, NoMemory>
    requires form { IsInForm command.now }
    requires tree { IsTree (V.nodes view.now) }
    requires way { way.now ≡ nearest_of (V.nodes view.now) [] (way_down [] command.now.path) ∷ absent_of (V.nodes view.now) (way_down [] command.now.path) }
    ensures { IfOk result (λ given. answer_of given ≡ answer (operation_of command.now.op) (record { domid = domid; target = target }) (sight_of (operation_of command.now.op) number (V.nodes view.now) command.now.path) command.now.path (all_below (V.nodes view.now) command.now.path)) }
{
    let node = present(view, &way[0]);
    let rights = rights(&node.perms, domid, target);
    permitted(
        alloc,
        command,
        domid,
        rights,
        number,
        view,
        node,
        from_place(way, 1),
    )
}

/// The answer to a command that may have it, by the rights at the nearest node.
fn permitted<V: View>(
    alloc: Global,
    command: &TreeCommand,
    domid: u16,
    rights: Rights,
    number: u64,
    view: &V,
    node: &Node,
    absent: &[Path],
) -> Result<Answer, NoMemory>
    requires tree { IsTree (V.nodes view.now) }
    requires there { absent.now ≡ [] → is_present (V.nodes view.now) command.now.path ≡ true }
    ensures { IfOk result (λ given. (nearest : Place) (target : Option ℕ)
        → answer_of given ≡ permitted (operation_of command.now.op) (record { domid = domid; target = target }) rights (seen (operation_of command.now.op) number (V.nodes view.now) command.now.path nearest node.now absent.now) command.now.path (all_below (V.nodes view.now) command.now.path)) }
{
    let path = &command.path;
    match &command.op {
        TreeOp::Directory => reading::directory(alloc, rights, view, path, absent),
        TreeOp::Read => reading::read(alloc, rights, node, absent),
        TreeOp::GetPerms => reading::get_perms(alloc, rights, node, absent),
        TreeOp::Write(value) => writing::write(alloc, domid, rights, node, value, path, absent),
        TreeOp::Mkdir => writing::mkdir(alloc, domid, rights, node, absent),
        TreeOp::Rm => removing::rm(alloc, rights, view, path, absent),
        TreeOp::SetPerms(perms) => {
            writing::set_perms(alloc, domid, rights, node, perms, path, absent)
        }
        TreeOp::DirectoryPart { offset } => {
            parts::directory_part(alloc, rights, number, *offset, view, path, absent)
        }
    }
}
