//! A reader that hands on the records of a stream one at a time.
ghost use Rattle.std.specs.Prelude.{◌≡◌, ◌≢◌, IfOk, IfErr, MatchResult};
ghost use Rattle.stream_model.specs.Spelling.{IsStream};
ghost use Rattle.stream_model.specs.Reading.{stream_of};
ghost use Rattle.stream_model.specs.Faults.{IsFirstFault};
ghost use Rattle.mig_records.specs.Unread.{HandsOn};

use crate::fields::{behind, part, u32_at};
use crate::places::whole_size;
use crate::reading::record_in;
use crate::record::Record;
use crate::stream::first_fault;
use crate::testing::kind_at;
use std::alloc::Global;
use std::marker::Model;
use stream_model::StreamFault;
use xs_base::NoMemory;

/// The records of a stream that are not read yet, in order. Contracts see the bytes of the stream, the place of the
/// next record, and the records from there on.
#[derive(Debug, Drop)]
pub struct Reader<'a> {
    bytes: &'a [u8],
    at: usize,
}

impl<'a> Model for Reader<'a> {
    ghost use Rattle.mig_records.specs.Unread.{Unread};

    ghost Value = { Unread };

    ghost use Rattle.mig_records.specs.ReaderView.{reader_view, IsReader};

    ghost view = { reader_view };

    ghost invariant = { IsReader };
}

impl<'a> Reader<'a> {
    /// A reader of all records of a stream, or the first fault of the bytes and its place, as `read_stream` says it. The
    /// bytes are gone through to their end, and no memory is taken. O(length of the bytes).
    pub fn new(bytes: &'a [u8]) -> Result<Reader<'a>, StreamFault>
        ensures ok { IfOk result (λ reader. IsStream bytes.now reader.records) }
        ensures begins { IfOk result (λ reader. (reader.bytes ≡ bytes.now) × (reader.at ≡ 16)) }
        ensures fault { IfErr result (λ fault. IsFirstFault bytes.now fault) }
        ensures named { IfErr result (λ fault. fault ≢ StreamFault.NoMemory) }
        // What it will read, or the fault, is what the bytes read as.
        ensures exact { MatchResult result (λ reader. stream_of bytes.now ≡ Ok reader.records)
            (λ fault. stream_of bytes.now ≡ Err fault) }
    {
        match first_fault(bytes) {
            Some(fault) => Err(fault),
            None => Ok(Reader { bytes, at: 16 }),
        }
    }

    /// The place of the next record, a byte offset from the beginning of the stream; behind END it is the length of the
    /// stream. O(1).
    pub fn place(&self) -> usize
        ensures { result ≡ self.now.at }
    {
        self.at
    }

    /// The next record, or none behind END. Refused, the reader is as before. O(length of the record); memory is taken
    /// for its texts and entries alone.
    pub fn next(&mut self, alloc: Global) -> Result<Option<Record>, NoMemory>
        ensures { HandsOn self.old self.new result }
    {
        if self.at == self.bytes.len() {
            return Ok(None);
        }
        let rest = behind(self.bytes, self.at);
        let Ok(kind) = kind_at(self.at, rest) else {
            unreachable!();
        };
        let len = u32_at(rest, 4);
        let item = record_in(alloc, kind, part(rest, 8, len as usize))?;
        self.at += whole_size(len);
        Ok(Some(item))
    }
}
