//! Rows of whole messages of domain 0.

ghost use Rattle.std.specs.Prelude.{◌≡◌, [], ◌∷◌, codes};
ghost use Rattle.xs_model.specs.Requests.{all_types};
ghost use Rattle.world_model.specs.Transcripts.{transcript_with};
ghost use Rattle.model_rows.specs.Texts.{text_of, no_stream};

/// READ of a node that is absent answers ENOENT.
pub fn absent_node()
    ensures { transcript_with no_stream all_types (text_of (codes "send 0 020000000100000000000000030000002f6100" ∷ codes "serve 0" ∷ [])) []
        ≡ text_of (codes "send 0 19"
        ∷ codes "put 0 19"
        ∷ codes "intake 0 19"
        ∷ codes "do 0 done"
        ∷ codes "out 0 23"
        ∷ codes "take 0 10000000010000000000000007000000454e4f454e5400"
        ∷ []) }
{}

/// A value may have NUL bytes: WRITE of the bytes 0, 1 and 0, and READ of them.
pub fn value_with_nul_bytes()
    ensures { transcript_with no_stream all_types (text_of (codes "send 0 0b0000000200000000000000060000002f6100000100"
        ∷ codes "serve 0"
        ∷ codes "send 0 020000000300000000000000030000002f6100"
        ∷ codes "serve 0"
        ∷ [])) []
        ≡ text_of (codes "send 0 22"
        ∷ codes "put 0 22"
        ∷ codes "intake 0 22"
        ∷ codes "do 0 done"
        ∷ codes "out 0 19"
        ∷ codes "take 0 0b0000000200000000000000030000004f4b00"
        ∷ codes "send 0 19"
        ∷ codes "put 0 19"
        ∷ codes "intake 0 19"
        ∷ codes "do 0 done"
        ∷ codes "out 0 19"
        ∷ codes "take 0 02000000030000000000000003000000000100"
        ∷ []) }
{}

/// An empty value: the reply to READ is its header alone.
pub fn empty_value()
    ensures { transcript_with no_stream all_types (text_of (codes "send 0 0b0000000300000000000000030000002f6100"
        ∷ codes "serve 0"
        ∷ codes "send 0 020000000400000000000000030000002f6100"
        ∷ codes "serve 0"
        ∷ [])) []
        ≡ text_of (codes "send 0 19"
        ∷ codes "put 0 19"
        ∷ codes "intake 0 19"
        ∷ codes "do 0 done"
        ∷ codes "out 0 19"
        ∷ codes "take 0 0b0000000300000000000000030000004f4b00"
        ∷ codes "send 0 19"
        ∷ codes "put 0 19"
        ∷ codes "intake 0 19"
        ∷ codes "do 0 done"
        ∷ codes "out 0 16"
        ∷ codes "take 0 02000000040000000000000000000000"
        ∷ []) }
{}
