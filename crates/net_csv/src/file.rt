ghost use Rattle.csv.specs.Records.{fields_of};
ghost use Rattle.net_check.specs.declared.TheConstants.{MAX_FILE_BYTES};
ghost use Rattle.net_check.specs.declared.fault.Fault.{Fault};
ghost use Rattle.net_check.specs.declared.fault.FileKind.TheVariants as file;
ghost use Rattle.net_csv.specs.Left.{IsReading, records_left, trimmed_left};
ghost use Rattle.net_csv.specs.Reading.{banks_header, below_header, read_rows, rows_from, rows_of};
ghost use Rattle.net_csv.specs.Reading.{trimmed_fields, version_of, with_banks_of, with_debts_of};
ghost use Rattle.std.specs.Prelude.{◌≡◌, ◌≤◌, ◌↔◌, ◌∷◌, [], length, Ok, Err, IfOk, OnOk, IsErrOf};

use crate::banks::add_bank;
use crate::debts::add_debt;
use crate::layout::{Layout, Version};
use crate::records::{fault, has_words, is_blank, read_header, read_next, reader_of};
use clr_net::Network;
use csv::{ByteRecord, Reader};
use net_check::{FaultKind, FileKind, Limits, ReadNet};
use std::alloc::Global;

/// Adds the banks of a file to a network by these limits, or names the first fault of the file.
pub(crate) fn add_banks(
    alloc: Global,
    by: Limits,
    text: &[u8],
    net: &mut Network,
) -> Result<(), ReadNet>
    requires { length text.now ≤ MAX_FILE_BYTES }
    ensures read { OnOk result (with_banks_of by text.now net.old ≡ Ok net.new) }
    ensures refused { (f : Fault) → IsErrOf result (ReadNet.Refused f)
        → with_banks_of by text.now net.old ≡ Err f }
{
    let mut reader = reader_of(alloc, text);
    let mut fields = ByteRecord::new(alloc);
    let version = read_version(&mut reader, &mut fields)?;
    add_rows(
        alloc,
        by,
        &mut reader,
        &mut fields,
        Layout::Banks(version),
        net,
    )
}

/// Adds the debts of a file to a network by these limits, or names the first fault of the file.
pub(crate) fn add_debts(
    alloc: Global,
    by: Limits,
    text: &[u8],
    net: &mut Network,
) -> Result<(), ReadNet>
    requires { length text.now ≤ MAX_FILE_BYTES }
    ensures read { OnOk result (with_debts_of by text.now net.old ≡ Ok net.new) }
    ensures refused { (f : Fault) → IsErrOf result (ReadNet.Refused f)
        → with_debts_of by text.now net.old ≡ Err f }
{
    let mut reader = reader_of(alloc, text);
    let mut fields = ByteRecord::new(alloc);
    let words = Layout::Debts.header();
    read_header(&mut reader, &mut fields, FileKind::Debts, words)?;
    add_rows(alloc, by, &mut reader, &mut fields, Layout::Debts, net)
}

// Reads the header of a banks file, which tells its version.
fn read_version(reader: &mut Reader<&[u8]>, fields: &mut ByteRecord) -> Result<Version, ReadNet>
    requires { IsReading reader.old }
    ensures reading { OnOk result (IsReading reader.new) }
    ensures version { IfOk result (λ v. v ≡ version_of (trimmed_left reader.old)) }
    ensures below { let words = banks_header (version_of (trimmed_left reader.old)) in
        OnOk result (below_header file.Banks words (trimmed_left reader.old)
        ≡ Ok (trimmed_left reader.new)) }
    ensures refused { let words = banks_header (version_of (trimmed_left reader.old)) in
        (f : Fault) → IsErrOf result (ReadNet.Refused f)
        → below_header file.Banks words (trimmed_left reader.old) ≡ Err f }
{
    if read_next(reader, fields)? {
        if has_words(fields, Layout::Banks(Version::Two).header()) {
            return Ok(Version::Two);
        }
        if has_words(fields, Layout::Banks(Version::One).header()) {
            return Ok(Version::One);
        }
    }
    Err(ReadNet::Refused(fault(FileKind::Banks, 0, FaultKind::Header)))
}

// Adds the banks or the debts below a header to a network by these limits, or names the first fault
// of the records.
fn add_rows(
    alloc: Global,
    by: Limits,
    reader: &mut Reader<&[u8]>,
    fields: &mut ByteRecord,
    layout: Layout,
    net: &mut Network,
) -> Result<(), ReadNet>
    requires reading { IsReading reader.old }
    requires few { length (records_left reader.old) ≤ MAX_FILE_BYTES }
    ensures read { let rows = rows_of (trimmed_left reader.old) in
        OnOk result (read_rows by layout net.old rows ≡ Ok net.new) }
    ensures refused { let rows = rows_of (trimmed_left reader.old) in
        (f : Fault) → IsErrOf result (ReadNet.Refused f)
        → read_rows by layout net.old rows ≡ Err f }
{
    let mut row = 0;
    'rows: while read_next(reader, fields)? {
        row += 1;
        add_record(alloc, by, net, layout, row, fields)?;
    }
    Ok(())
}

// Adds the bank or the debt of one record to a network, by these limits. A blank record has none.
// `Refused` comes exactly where there is a fault.
fn add_record(
    alloc: Global,
    by: Limits,
    net: &mut Network,
    layout: Layout,
    row: u32,
    fields: &ByteRecord,
) -> Result<(), ReadNet>
    ensures read { let rows = rows_from row (trimmed_fields (fields_of fields.now) ∷ []) in
        OnOk result (read_rows by layout net.old rows ≡ Ok net.new) }
    ensures refused { let rows = rows_from row (trimmed_fields (fields_of fields.now) ∷ []) in
        (f : Fault) → IsErrOf result (ReadNet.Refused f)
        ↔ (read_rows by layout net.old rows ≡ Err f) }
{
    if is_blank(fields) {
        return Ok(());
    }
    match layout {
        Layout::Banks(version) => add_bank(alloc, by, net, version, row, fields),
        Layout::Debts => add_debt(by, net, row, fields),
    }
}
