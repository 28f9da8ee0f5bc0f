//! Rows of messages in pieces, and of indices.

ghost use Rattle.std.specs.Prelude.{◌≡◌, [], ◌∷◌, ◌++◌, codes};
ghost use Rattle.xs_model.specs.Requests.{all_types};
ghost use Rattle.world_model.specs.Transcripts.{transcript_with};
ghost use Rattle.model_rows.specs.Texts.{text_of, no_stream};
ghost use Rattle.model_rows.specs.Many.{large_write, send_line};
ghost use Rattle.model_rows.specs.Steps.{Plays, Line};

/// A header that comes in four pieces.
pub fn cut_header()
    ensures { Plays (
        Line (codes "send 0 020000000100000000000000030000002f6100") (codes "send 0 19")
        ∷ Line (codes "put 0 1") (codes "put 0 1")
        ∷ Line (codes "intake 0 16") (codes "intake 0 1")
        ∷ Line (codes "do 0") (codes "do 0 part")
        ∷ Line (codes "put 0 14") (codes "put 0 14")
        ∷ Line (codes "intake 0 16") (codes "intake 0 14")
        ∷ Line (codes "do 0") (codes "do 0 part")
        ∷ Line (codes "put 0 1") (codes "put 0 1")
        ∷ Line (codes "intake 0 16") (codes "intake 0 1")
        ∷ Line (codes "do 0") (codes "do 0 part")
        ∷ Line (codes "put 0 3") (codes "put 0 3")
        ∷ Line (codes "intake 0 16") (codes "intake 0 3")
        ∷ Line (codes "do 0") (codes "do 0 done")
        ∷ []) }
{}

/// A reply leaves in two pieces, and the second request follows it.
pub fn half_a_reply()
    ensures { Plays (
        Line (codes "send 0 0b0000000200000000000000030000002f6100") (codes "send 0 19")
        ∷ Line (codes "send 0 020000000300000000000000030000002f6100") (codes "send 0 19")
        ∷ Line (codes "put 0 22") (codes "put 0 22")
        ∷ Line (codes "intake 0 4112") (codes "intake 0 19")
        ∷ Line (codes "do 0") (codes "do 0 done")
        ∷ Line (codes "out 0 7") (codes "out 0 7")
        ∷ Line (codes "intake 0 4112") (codes "intake 0 3")
        ∷ Line (codes "put 0 1024") (codes "put 0 16")
        ∷ Line (codes "intake 0 4112") (codes "intake 0 16")
        ∷ Line (codes "do 0") (codes "do 0 done")
        ∷ Line (codes "out 0 4112") (codes "out 0 28")
        ∷ Line (codes "take 0 4112") (codes "take 0 0b0000000200000000000000030000004f4b0002000000030000000000000000000000")
        ∷ []) }
{}

/// Indices that no ring has cost a guest its connection.
pub fn poked_beyond_a_ring()
    ensures { Plays (
        Line (codes "poke 0 req_prod 2000") (codes "poke 0 ok")
        ∷ Line (codes "intake 0 1") (codes "intake 0 dropped index 2000 0")
        ∷ Line (codes "page 0") (codes "page 0 0 2000 0 0 2")
        ∷ []) }
{}

/// After a poke the store finds the bytes that stand in the page.
pub fn poked_ahead()
    ensures { Plays (
        Line (codes "poke 0 req_prod 16") (codes "poke 0 ok")
        ∷ Line (codes "put 0 1024") (codes "put 0 0")
        ∷ Line (codes "intake 0 4112") (codes "intake 0 16")
        ∷ Line (codes "do 0") (codes "do 0 done")
        ∷ Line (codes "out 0 4112") (codes "out 0 23")
        ∷ Line (codes "take 0 4112") (codes "take 0 10000000000000000000000007000000454e4f53595300")
        ∷ []) }
{}

/// Indices wrap at 2^32: a page that starts six bytes below it.
pub fn index_wrap()
    ensures { transcript_with no_stream all_types (text_of (codes "domain 0 at 4294967290"
        ∷ codes "send 0 0b0000000500000000000000540000002f6100787878787878787878787878787878787878787878787878787878787878787878787878787878787878787878787878787878787878787878787878787878787878787878787878787878787878787878"
        ∷ codes "put 0 1024"
        ∷ codes "page 0"
        ∷ codes "serve 0"
        ∷ codes "page 0"
        ∷ [])) []
        ≡ text_of (codes "send 0 100"
        ∷ codes "put 0 100"
        ∷ codes "page 0 4294967290 94 4294967290 4294967290 0"
        ∷ codes "put 0 0"
        ∷ codes "intake 0 100"
        ∷ codes "do 0 done"
        ∷ codes "out 0 19"
        ∷ codes "take 0 0b0000000500000000000000030000004f4b00"
        ∷ codes "page 0 94 94 13 13 0"
        ∷ []) }
{}

/// A message that is larger than the ring passes in two parts, and a header that asks for more than a payload may have
/// loses the connection.
pub fn larger_than_the_ring()
    ensures { transcript_with no_stream all_types (text_of (send_line large_write
        ∷ codes "serve 0"
        ∷ codes "serve 0"
        ∷ codes "send 0 02000000010000000000000001100000"
        ∷ codes "serve 0"
        ∷ codes "page 0"
        ∷ [])) []
        ≡ text_of (codes "send 0 1040"
        ∷ codes "put 0 1024" ∷ codes "intake 0 1024" ∷ codes "do 0 part" ∷ codes "out 0 none" ∷ codes "take 0 -"
        ∷ codes "put 0 16" ∷ codes "intake 0 16" ∷ codes "do 0 done" ∷ codes "out 0 19"
        ∷ codes "take 0 0b0000000500000000000000030000004f4b00"
        ∷ codes "send 0 16"
        ∷ codes "put 0 16" ∷ codes "intake 0 16" ∷ codes "do 0 dropped length 4097" ∷ codes "out 0 gone" ∷ codes "take 0 -"
        ∷ codes "page 0 1056 1056 19 19 3"
        ∷ []) }
{}
