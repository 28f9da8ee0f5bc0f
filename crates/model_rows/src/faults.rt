//! Rows of scripts with a faulty line: the first such line, counted from 1, and its first fault.

ghost use Rattle.std.specs.Prelude.{◌≡◌, [], ◌∷◌, Err, codes};
ghost use Rattle.world_model.specs.Scripts.{script_of};
ghost use Rattle.world_model.specs.declared.LineKind.TheVariants.{Verb, Number, Place, Hex, Fields};
ghost use Rattle.model_rows.specs.Texts.{text_of};

/// A comment is a line too; `frob` is no verb.
pub fn unknown_verb()
    ensures { script_of (text_of (codes "# c" ∷ codes "frob 1" ∷ [])) ≡ Err (record { line = 2; kind = Verb }) }
{}

/// No event moves 0 bytes.
pub fn number_of_bytes()
    ensures { script_of (text_of (codes "put 0 0" ∷ [])) ≡ Err (record { line = 1; kind = Number }) }
{}

/// A head line may not follow an event.
pub fn head_line_behind_an_event()
    ensures { script_of (text_of (codes "do 0" ∷ codes "domain 1 at 0" ∷ [])) ≡ Err (record { line = 2; kind = Place }) }
{}

/// A digit alone is no byte.
pub fn half_a_byte()
    ensures { script_of (text_of (codes "send 0 0" ∷ [])) ≡ Err (record { line = 1; kind = Hex }) }
{}

/// Two spaces make an empty field, and fields are counted before they are read.
pub fn two_spaces()
    ensures { script_of (text_of (codes "do  0" ∷ [])) ≡ Err (record { line = 1; kind = Fields }) }
{}
