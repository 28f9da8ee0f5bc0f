//! Made scripts.

ghost use Rattle.std.specs.Prelude.{◌≡◌, ◌∷◌, ◌++◌, [], IfOk, OnOk};
ghost use Rattle.xs_model.specs.Messages.{message_bytes};
ghost use Rattle.guest_script.specs.Made.{sent_lines, handover_lines, operation_lines, past, first_lines, made_script, make_bulk, open_bulk};

use crate::generator::{Generator, choice_in};
use crate::line_text::LineText;
use crate::made_message::{put_head, request_text};
use std::alloc::Global;
use xs_base::{Bytes, NoMemory, push_hex_between};
use xs_model::message::kind;

/// How many operations there are between two handovers.
const HANDOVER_EVERY: u32 = 16;

/// The script of a seed and a number of operations: requests of the domains 0 to 3 on the tree below `/bulk`, and a
/// handover behind each 16th. It is a script that [`read_script`](crate::read_script) reads.
///
/// It is refused for want of memory alone. O(number of operations) bytes are written.
pub fn make(alloc: Global, seed: u64, count: u32) -> Result<Bytes, NoMemory>
    ensures made { IfOk result (λ bytes. bytes ≡ made_script seed count) }
{
    let mut lines = Bytes::new(alloc);
    push_first(&mut lines)?;
    let mut generator = Generator::new(seed);
    for before in 0..count {
        push_operation(&mut lines, before + 1, &mut generator)?;
    }
    Ok(lines)
}

/// Appends the lines before the first operation.
fn push_first(lines: &mut Bytes) -> Result<(), NoMemory>
    ensures { OnOk result (lines.new ≡ lines.old ++ first_lines) }
{
    lines.push(b"domain 1 at 0\ndomain 2 at 0\ndomain 3 at 0\n")?;
    push_request(lines, 0, &make_bulk())?;
    push_request(lines, 0, &open_bulk())
}

/// The request that makes `/bulk`.
fn make_bulk() -> LineText
    ensures { result ≡ message_bytes make_bulk }
{
    let mut text = LineText::new();
    text.put_words(b"/bulk\0");
    put_head(&mut text, kind::MKDIR, 0, 0);
    text
}

/// The request that lets every domain read and write `/bulk`.
fn open_bulk() -> LineText
    ensures { result ≡ message_bytes open_bulk }
{
    let mut text = LineText::new();
    text.put_words(b"/bulk\0b0\0");
    put_head(&mut text, kind::SET_PERMS, 0, 0);
    text
}

/// Appends the lines of the operation with this number, and leads the generator past it.
fn push_operation(lines: &mut Bytes, number: u32, generator: &mut Generator) -> Result<(), NoMemory>
    ensures lines { OnOk result (lines.new ≡ lines.old ++ operation_lines number generator.old) }
    ensures past { generator.new ≡ past generator.old }
{
    let (drawn, known) = generator.draw();
    let request = request_text(choice_in(drawn), number, drawn, known);
    push_request(lines, drawn % 4, &request)?;
    push_handover(lines, number)
}

/// Appends the lines of a domain's request: it is sent and served.
#[tactic(auto, unfolding(crate::specs::Made::sent_lines))]
fn push_request(lines: &mut Bytes, domid: u32, request: &LineText) -> Result<(), NoMemory>
    ensures { OnOk result (lines.new ≡ lines.old ++ sent_lines domid request.now) }
{
    let mut before = LineText::new();
    before.put_words(b" ");
    before.put_number(u64::from(domid));
    before.put_words(b"send ");
    let mut after = LineText::new();
    after.put_words(b"\n");
    after.put_number(u64::from(domid));
    after.put_words(b"\nserve ");
    push_hex_between(
        lines,
        before.as_slice(),
        request.as_slice(),
        after.as_slice(),
    )
}

/// Appends the line of a handover, if one follows the operation with this number.
fn push_handover(lines: &mut Bytes, number: u32) -> Result<(), NoMemory>
    ensures { OnOk result (lines.new ≡ lines.old ++ handover_lines number) }
{
    if number.is_multiple_of(HANDOVER_EVERY) {
        lines.push(b"handover\n")
    } else {
        Ok(())
    }
}
