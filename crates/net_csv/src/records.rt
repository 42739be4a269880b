//! The records of a file in memory, one after the other, as every reader of files reads them.
ghost use Rattle.csv.specs.Reading.{default_config, records, strip_bom};
ghost use Rattle.csv.specs.Records.{field_at, fields_of};
ghost use Rattle.net_check.specs.Field.{are_words};
ghost use Rattle.net_check.specs.Record.{fault_at};
ghost use Rattle.net_check.specs.declared.fault.Fault.{Fault};
ghost use Rattle.net_csv.specs.Left.{IsReading, MayCome, records_left, trimmed_left};
ghost use Rattle.net_csv.specs.Reading.{below_header, is_blank as are_blank, trimmed_fields};
ghost use Rattle.std.specs.Prelude.{◌≡◌, ◌≢◌, ◌<◌, ◌∷◌, [], Some, true, false, map, length, Ok, Err, IfOk, OnOk, IfErr, IsErrOf, MatchOption};

use csv::{ByteRecord, ErrorKind, Reader, ReaderBuilder};
use net_check::{Fault, FaultKind, FileKind, ReadNet, trimmed};
use std::alloc::Global;

/// A reader of the records of a text: commas, double quotes, no header row, and records of any
/// number of fields.
pub fn reader_of(alloc: Global, text: &[u8]) -> Reader<&[u8]>
    ensures reading { IsReading result }
    ensures all { records_left result ≡ records default_config (strip_bom text.now) }
{
    ReaderBuilder::new()
        .has_headers(false)
        .flexible(true)
        .from_reader(alloc, text)
}

/// Reads the next record into `fields`, and says whether there was one. Its one error is `Mem`. A
/// record takes eight bytes for each field beside its text.
pub fn read_next(reader: &mut Reader<&[u8]>, fields: &mut ByteRecord) -> Result<bool, ReadNet>
    requires { IsReading reader.old }
    ensures reading { IfOk result (λ found. found ≡ true → IsReading reader.new) }
    ensures next { IfOk result (λ found. found ≡ true
        → records_left reader.old ≡ fields_of fields.new ∷ records_left reader.new) }
    ensures end { IfOk result (λ found. found ≡ false → records_left reader.old ≡ []) }
    ensures memory { IfErr result (λ e. e ≡ ReadNet.Mem) }
{
    match reader.read_byte_record(fields) {
        Ok(found) => Ok(found),
        Err(error) => Err(want_of_memory(error.into_kind())),
    }
}

// The answer where a record of a text in memory is not read. Records of any number of fields are
// taken, and none need be text. A read from memory does not fail, but no contract of `csv` says so:
// it would be told as want of memory.
fn want_of_memory(kind: ErrorKind) -> ReadNet
    requires { MayCome kind }
    ensures { result ≡ ReadNet.Mem }
{
    match kind {
        ErrorKind::OutOfMemory | ErrorKind::Io(_) => ReadNet::Mem,
        _ => unreachable!(),
    }
}

/// Reads the header, which is the first record and has these words.
pub fn read_header(
    reader: &mut Reader<&[u8]>,
    fields: &mut ByteRecord,
    file: FileKind,
    words: &[&str],
) -> Result<(), ReadNet>
    requires { IsReading reader.old }
    ensures reading { OnOk result (IsReading reader.new) }
    ensures below { let header = map (λ w. w.now) words.now in
        OnOk result (below_header file header (trimmed_left reader.old)
        ≡ Ok (trimmed_left reader.new)) }
    ensures refused { let header = map (λ w. w.now) words.now in
        (f : Fault) → IsErrOf result (ReadNet.Refused f)
        → below_header file header (trimmed_left reader.old) ≡ Err f }
{
    if read_next(reader, fields)? && has_words(fields, words) {
        Ok(())
    } else {
        Err(ReadNet::Refused(fault(file, 0, FaultKind::Header)))
    }
}

/// A fault of a row of a file.
pub fn fault(file: FileKind, row: u32, kind: FaultKind) -> Fault
    ensures { result ≡ fault_at file row kind }
{
    Fault { file, row, kind }
}

/// Whether the fields of a record, without the spaces and tabs at their ends, are these words.
pub fn has_words(fields: &ByteRecord, words: &[&str]) -> bool
    ensures { let given = map (λ w. w.now) words.now in
        result ≡ are_words given (trimmed_fields (fields_of fields.now)) }
{
    fields.len() == words.len()
        && fields
            .iter()
            .zip(words)
            .all(|(field, word)| word.as_bytes() == trimmed(field))
}

/// Whether a record is blank: each field is empty but for spaces and tabs.
pub fn is_blank(fields: &ByteRecord) -> bool
    ensures { result ≡ are_blank (trimmed_fields (fields_of fields.now)) }
{
    fields.iter().all(|field| trimmed(field).is_empty())
}

/// The fields of a record of three.
pub fn three_fields(fields: &ByteRecord) -> Option<(&[u8], &[u8], &[u8])>
    ensures { MatchOption result (length (fields_of fields.now) ≢ 3)
        (λ p. fields_of fields.now ≡ p.0.now ∷ p.1.now ∷ p.2.now ∷ []) }
{
    if fields.len() != 3 {
        return None;
    }
    Some((field(fields, 0), field(fields, 1), field(fields, 2)))
}

/// The fields of a record of four.
pub fn four_fields(fields: &ByteRecord) -> Option<(&[u8], &[u8], &[u8], &[u8])>
    ensures { MatchOption result (length (fields_of fields.now) ≢ 4)
        (λ p. fields_of fields.now ≡ p.0.now ∷ p.1.now ∷ p.2.now ∷ p.3.now ∷ []) }
{
    if fields.len() != 4 {
        return None;
    }
    Some((
        field(fields, 0),
        field(fields, 1),
        field(fields, 2),
        field(fields, 3),
    ))
}

/// The field at a place.
pub fn field(fields: &ByteRecord, place: usize) -> &[u8]
    requires { place < length (fields_of fields.now) }
    ensures { field_at (fields_of fields.now) place ≡ Some result.now }
{
    fields.get(place).unwrap()
}
