//! The records of a file, one at a time.

ghost use Rattle.std.specs.Prelude.{◌≡◌, ◌≤◌, ◌+◌, length, IfOk, OnErr, [], Some};
ghost use Rattle.csv.specs.Reading.{default_config, records, strip_bom};
ghost use Rattle.csv.specs.Records.{fields_of};
ghost use Rattle.csv_sets.specs.Left.{AllRowsText, GivesRecord};

use csv::{ByteRecord, Reader, ReaderBuilder};
use roster_base::NoMemory;
use std::alloc::Global;
use std::marker::Model;

/// The records of a text that are left to read. A clause sees their cells.
#[derive(Drop)]
pub struct RecordReader<'a> {
    reader: Reader<&'a [u8]>,
}

impl<'a> Model for RecordReader<'a> {
    ghost use Rattle.std.specs.Prelude.{List, ℕ, Some};
    ghost use Rattle.csv_sets.specs.Left.{records_left, CanRead};

    ghost Value = { List (List (List ℕ)) };

    ghost view = { λ s. records_left (λ b. Some b.now) s.reader };

    ghost invariant = { λ s. CanRead s.reader };
}

impl<'a> RecordReader<'a> {
    /// All records of a text, the header among them. One byte order mark at its start is passed over, and so are blank
    /// lines.
    pub fn new(alloc: Global, text: &'a str) -> RecordReader<'a>
        ensures records { result ≡ records default_config (strip_bom text.now) }
        ensures text { AllRowsText result }
        ensures few { length result ≤ length text.now + 1 }
    {
        let reader = ReaderBuilder::new()
            .has_headers(false)
            .flexible(true)
            .from_reader(alloc, text.as_bytes());
        RecordReader { reader }
    }

    /// Reads the next record into `cells`, or says that there is none. After an error none is left.
    pub fn read(&mut self, cells: &mut ByteRecord) -> Result<bool, NoMemory>
        ensures ok { IfOk result (λ found. GivesRecord self.old found (fields_of cells.new) self.new) }
        ensures err { OnErr result (self.new ≡ []) }
    {
        // Over bytes in memory, whose records may have any width, a read fails for want of memory alone.
        let Ok(found) = self.reader.read_byte_record(cells) else {
            return Err(NoMemory);
        };
        Ok(found)
    }
}
