//! Laws on messages: reading undoes writing, and what no payload asks for.

ghost use Rattle.std.specs.Prelude.{◌≡◌, ◌++◌, List, ℕ, false};
ghost use Rattle.xs_model.specs.Messages.{header_of, header_bytes, payload_of};
ghost use Rattle.xs_model.specs.declared.message.Header.{Header};
ghost use Rattle.xs_model.specs.Paths.{Path};
ghost use Rattle.xs_model.specs.Requests.{Operation, Command, request_of};
ghost use Rattle.xs_model.specs.Commands.{is_out_of_form};
ghost use Rattle.wire_codec.specs.Codec.{Fits};

/// The header of a message is read as it was written, whatever follows it.
pub fn header_reads_back()
    ensures { (head : Header) (rest : List ℕ) → Fits head → header_of (header_bytes head ++ rest) ≡ head }
{}

/// What follows the header is the payload.
pub fn payload_reads_back()
    ensures { (head : Header) (payload : List ℕ) → payload_of (header_bytes head ++ payload) ≡ payload }
{}

/// No payload asks for RM of `/` or for SET_PERMS to no entries, whatever types are served.
#[tactic(auto, using(crate::proofs::AskedLemmas::command_in_form))]
pub fn commands_are_in_form()
    ensures { (served : List ℕ) (kind : ℕ) (payload : List ℕ) (domid : ℕ) (operation : Operation) (path : Path)
        → request_of served kind payload domid ≡ Ok (Command operation path) → is_out_of_form operation path ≡ false }
{}
