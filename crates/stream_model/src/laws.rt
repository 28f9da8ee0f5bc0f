//! Laws of the grammar: what the definitions promise, each proved for all bytes and all records.

ghost use Rattle.std.specs.Prelude.{◌≡◌, ◌≢◌, ◌<◌, ◌≤◌, ◌+◌, ◌↔◌, ℕ, List, length, take, drop, Ok, Err};
ghost use Rattle.text_model.specs.Hex.{bytes_of_hex, paired};
ghost use Rattle.stream_model.specs.declared.fault.StreamFault.{StreamFault};
ghost use Rattle.stream_model.specs.Fields.{AreBytes};
ghost use Rattle.stream_model.specs.Record.{StreamRecord};
ghost use Rattle.stream_model.specs.Spelling.{AreRecords, IsStream, AreWritable, canonical_record, canonical};
ghost use Rattle.stream_model.specs.Reading.{record_at, stream_of};
ghost use Rattle.stream_model.specs.Faults.{IsFirstFault};
ghost use Rattle.stream_model.specs.Places.{place};
ghost use Rattle.stream_model.specs.View.{view_text};
ghost use Rattle.stream_model.specs.CountRows.{commands_run, one_command_hex, eight_bytes_hex, eleven_bytes_hex, fifteen_bytes_hex};
ghost use Rattle.stream_model.specs.EmptyStore.{empty_store, empty_store_hex, empty_store_text};

/// Bytes that read as records are a stream of these.
pub fn what_is_read_is_spelled()
    ensures { (bytes : List ℕ) (records : List StreamRecord) → AreBytes bytes
        → stream_of bytes ≡ Ok records → IsStream bytes records }
{}

/// A stream of records reads as these, whatever stands in its pads, in the surplus of its
/// bodies and in its padding.
pub fn what_is_spelled_is_read()
    ensures { (bytes : List ℕ) (records : List StreamRecord)
        → IsStream bytes records → stream_of bytes ≡ Ok records }
{}

/// No bytes are the stream of two lists of records.
pub fn records_are_fixed_by_their_bytes()
    ensures { (bytes : List ℕ) (records others : List StreamRecord)
        → IsStream bytes records → IsStream bytes others → records ≡ others }
{}

/// The canonical text of records is a stream of them.
pub fn canonical_text_is_a_stream()
    ensures { (records : List StreamRecord) → AreWritable records → IsStream (canonical records) records }
{}

/// The records of a stream have a canonical text, so whatever was read can be written again.
pub fn what_is_read_can_be_written()
    ensures { (bytes : List ℕ) (records : List StreamRecord) → IsStream bytes records → AreWritable records }
{}

/// Bytes read as a fault exactly where that is their first one.
pub fn a_fault_is_the_first()
    ensures { (bytes : List ℕ) (fault : StreamFault) → AreBytes bytes
        → (stream_of bytes ≡ Err fault) ↔ IsFirstFault bytes fault }
{}

/// At the place of each record of a stream that record and those behind it are spelled.
pub fn records_stand_at_their_places()
    ensures { (bytes : List ℕ) (records : List StreamRecord) (number : ℕ) → IsStream bytes records
        → number < length records → AreRecords (drop (place bytes number) bytes) (drop number records) }
{}

/// The worked example: a store that has the root alone.
pub fn the_empty_store()
    ensures bytes { bytes_of_hex empty_store_hex ≡ Ok (canonical empty_store) }
    ensures read { stream_of (canonical empty_store) ≡ Ok empty_store }
    ensures lines { view_text (canonical empty_store) empty_store ≡ empty_store_text }
{}

/// The worked example: the count of a transaction stands in twelve bytes and in more, and a shorter body has none.
pub fn a_transaction_has_its_count()
    ensures bytes { bytes_of_hex one_command_hex ≡ Ok (canonical_record (commands_run 1)) }
    ensures read { record_at 16 (paired one_command_hex) ≡ Ok (commands_run 1) }
    ensures eight { record_at 16 (paired eight_bytes_hex) ≡ Ok (commands_run 0) }
    ensures eleven { record_at 16 (paired eleven_bytes_hex) ≡ Ok (commands_run 0) }
    ensures fifteen { record_at 16 (paired fifteen_bytes_hex) ≡ Ok (commands_run 1) }
{}
