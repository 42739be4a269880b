ghost use Rattle.clr_net.specs.Limits.{IsOfKind};
ghost use Rattle.clr_net.specs.Net.{is_debt_of, is_of_kind, numbers};
ghost use Rattle.csv.specs.Records.{fields_of};
ghost use Rattle.net_check.specs.Field.{trimmed_field};
ghost use Rattle.net_check.specs.Record.{fault_at};
ghost use Rattle.net_check.specs.Within.{file_limit};
ghost use Rattle.net_check.specs.declared.fault.Fault.{Fault};
ghost use Rattle.net_check.specs.declared.fault.FaultKind.TheVariants as kind;
ghost use Rattle.net_check.specs.declared.fault.FileKind.TheVariants as file;
ghost use Rattle.net_check.specs.declared.limits.Limits.TheVariants as limits;
ghost use Rattle.net_csv.specs.Left.{IsReading, records_left, trimmed_left};
ghost use Rattle.net_csv.specs.Reading.{is_blank as are_blank, rows_from, trimmed_fields};
ghost use Rattle.raise_journal.specs.ReadJournal.{added, closed_early_at};
ghost use Rattle.raise_journal.specs.ReadJournal.{journal_within, is_closing as are_closing};
ghost use Rattle.raise_journal.specs.ReadJournal.{raise_from, raise_in_row, raises_in_file};
ghost use Rattle.raise_journal.specs.ReadJournal.{read_raises};
ghost use Rattle.net_check.specs.declared.TheConstants.{MAX_JOURNAL_BYTES};
ghost use Rattle.std.specs.List.{list_all, list_any};
ghost use Rattle.std.specs.Option.{option_map};
ghost use Rattle.std.specs.Prelude.{◌≡◌, ◌≢◌, ◌<◌, ◌≤◌, ◌↔◌, ◌∷◌, [], false, length, position};
ghost use Rattle.std.specs.Prelude.{All, Ok, Err};
ghost use Rattle.std.specs.Prelude.{IfErr, IfNone, IfOk, IfSome, OnOk, IsErrOf, MatchOption};

use crate::MAX_STAMP;
use clear_core::{Journal, Raise};
use clr_net::{BankId, DebtId, MAX_CLAIM, Network};
use csv::{ByteRecord, Reader};
use net_check::{
    Fault, FaultKind, FileKind, Limits, ReadNet, bank_of, class, number, number_up_to, trimmed,
};
use net_csv::records::{fault, field, is_blank, read_header, read_next, reader_of};
use std::alloc::Global;

/// Reads a journal of raises on the debts of a network by these limits, on the size of the file and
/// the raises: amounts in units, and each debt by the names of its banks and its class.
///
/// `Refused` names the first fault of the file, in the order of its records: a file too long, a
/// header that is another, a record of another number of fields, a raise too many, or a field that
/// is no stamp, no bank of the network, no class, no debt or no amount. `Mem` is want of memory.
/// The last record that is not blank may be the word `rounds` and a number, and carries no raise
/// then. Costs one pass over the file, and for each raise a walk of its debtor's row or of its
/// creditor's column, whichever is shorter.
pub fn read_journal_within(
    alloc: Global,
    by: Limits,
    net: &Network,
    bytes: &[u8],
) -> Result<Journal, ReadNet>
    ensures journal { IfOk result
        (λ journal. journal_within by net.now bytes.now ≡ Ok journal.raises) }
    ensures refused { (f : Fault) → IsErrOf result (ReadNet.Refused f)
        → journal_within by net.now bytes.now ≡ Err f }
    ensures size { file_limit by file.Journal < length bytes.now
        → IsErrOf result (ReadNet.Refused (fault_at file.Journal 0 kind.FileSize)) }
    ensures debts { IfOk result
        (λ journal. All (λ r. r.debt.0 < length net.now.debts) journal.raises) }
{
    if bytes.len() as u64 > by.bytes(FileKind::Journal) {
        return Err(ReadNet::Refused(fault(FileKind::Journal, 0, FaultKind::FileSize)));
    }
    read_rows(alloc, by, net, bytes)
}

// Reads a journal file of the allowed size by these limits, or names its first fault.
fn read_rows(alloc: Global, by: Limits, net: &Network, bytes: &[u8]) -> Result<Journal, ReadNet>
    requires { length bytes.now ≤ MAX_JOURNAL_BYTES }
    ensures journal { IfOk result
        (λ journal. raises_in_file by net.now bytes.now ≡ Ok journal.raises) }
    ensures refused { (f : Fault) → IsErrOf result (ReadNet.Refused f)
        → raises_in_file by net.now bytes.now ≡ Err f }
    ensures debts { IfOk result
        (λ journal. All (λ r. r.debt.0 < length net.now.debts) journal.raises) }
{
    let mut reader = reader_of(alloc, bytes);
    let mut fields = ByteRecord::new(alloc);
    let words = ["stamp", "debtor", "creditor", "class", "to"];
    read_header(&mut reader, &mut fields, FileKind::Journal, &words)?;
    let mut journal = Journal::empty(alloc);
    add_raises(by, net, &mut reader, &mut fields, &mut journal)?;
    Ok(journal)
}

// Adds the raises that are left below the header to a journal without raises by these limits, or
// names the first fault. What must be dropped stands behind references, so that no step has to drop
// it.
fn add_raises(
    by: Limits,
    net: &Network,
    reader: &mut Reader<&[u8]>,
    fields: &mut ByteRecord,
    journal: &mut Journal,
) -> Result<(), ReadNet>
    requires reading { IsReading reader.old }
    requires few { length (records_left reader.old) ≤ MAX_JOURNAL_BYTES }
    requires empty { journal.old.raises ≡ [] }
    ensures read { OnOk result (read_raises by net.now [] (rows_from 1 (trimmed_left reader.old))
        ≡ Ok journal.new.raises) }
    ensures refused { (f : Fault) → IsErrOf result (ReadNet.Refused f)
        → read_raises by net.now [] (rows_from 1 (trimmed_left reader.old)) ≡ Err f }
    ensures debts { OnOk result (All (λ r. r.debt.0 < length net.now.debts) journal.new.raises) }
{
    let mut row = 0;
    'rows: while read_next(reader, fields)? {
        row += 1;
        if is_closing(fields) {
            if is_rest_blank(reader, fields)? {
                return Ok(());
            }
            let early = closed_early(by, journal.as_slice().len(), row);
            return Err(ReadNet::Refused(early));
        }
        add_raise(by, net, row, fields, journal)?;
    }
    Ok(())
}

// Whether a record closes a journal, where it is the last.
fn is_closing(fields: &ByteRecord) -> bool
    ensures { result ≡ are_closing (trimmed_fields (fields_of fields.now)) }
{
    match two_fields(fields) {
        Some((word, count)) => trimmed(word) == b"rounds".as_slice()
            && number(trimmed(count)).is_some(),
        None => false,
    }
}

// Whether each record that is left is blank.
fn is_rest_blank(reader: &mut Reader<&[u8]>, fields: &mut ByteRecord) -> Result<bool, ReadNet>
    requires { IsReading reader.old }
    ensures blank { IfOk result (λ blank. blank ≡ list_all are_blank (trimmed_left reader.old)) }
    ensures memory { IfErr result (λ e. e ≡ ReadNet.Mem) }
{
    'rest: while read_next(reader, fields)? {
        if !is_blank(fields) {
            return Ok(false);
        }
    }
    Ok(true)
}

// The fault of a closing record that is not the last, after so many raises.
fn closed_early(by: Limits, raises: usize, row: u32) -> Fault
    ensures { result ≡ closed_early_at by raises row }
{
    if raises < by.raises() {
        fault(FileKind::Journal, row, FaultKind::Fields)
    } else {
        fault(FileKind::Journal, row, FaultKind::TooMany)
    }
}

// Adds the raise of one record to a journal, by these limits. A blank record has none. `Refused`
// comes exactly where there is a fault.
fn add_raise(
    by: Limits,
    net: &Network,
    row: u32,
    fields: &ByteRecord,
    journal: &mut Journal,
) -> Result<(), ReadNet>
    ensures read { OnOk result
        (added by net.now journal.old.raises row (trimmed_fields (fields_of fields.now))
        ≡ Ok journal.new.raises) }
    ensures refused { (f : Fault) → IsErrOf result (ReadNet.Refused f)
        ↔ (added by net.now journal.old.raises row (trimmed_fields (fields_of fields.now))
        ≡ Err f) }
    ensures debts { All (λ r. r.debt.0 < length net.now.debts) journal.old.raises
        → OnOk result (All (λ r. r.debt.0 < length net.now.debts) journal.new.raises) }
{
    if is_blank(fields) {
        return Ok(());
    }
    match raise_of(by, net, journal.as_slice().len(), row, fields) {
        Ok(raise) => match journal.push(raise) {
            Ok(_) => Ok(()),
            Err(_) => Err(ReadNet::Mem),
        },
        Err(fault) => Err(ReadNet::Refused(fault)),
    }
}

// The raise of a record that is not blank, after so many raises, by these limits.
fn raise_of(
    by: Limits,
    net: &Network,
    raises: usize,
    row: u32,
    fields: &ByteRecord,
) -> Result<Raise, Fault>
    ensures raise { result
        ≡ raise_in_row by net.now raises (row, trimmed_fields (fields_of fields.now)) }
    ensures debt { IfOk result (λ r. r.debt.0 < length net.now.debts) }
{
    if raises >= by.raises() {
        return Err(fault(FileKind::Journal, row, FaultKind::TooMany));
    }
    match five_fields(fields) {
        Some((stamp, debtor, creditor, class, to)) => raise_from_fields(
            net,
            trimmed(stamp),
            trimmed(debtor),
            trimmed(creditor),
            trimmed(class),
            trimmed(to),
        )
        .map_err(|kind| Fault {
            file: FileKind::Journal,
            row,
            kind,
        }),
        None => Err(fault(FileKind::Journal, row, FaultKind::Fields)),
    }
}

// The raise of these fields, or the first fault among them.
fn raise_from_fields(
    net: &Network,
    stamp: &[u8],
    debtor: &[u8],
    creditor: &[u8],
    class_digit: &[u8],
    to: &[u8],
) -> Result<Raise, FaultKind>
    ensures raise { result ≡ raise_from net.now
        (stamp.now ∷ debtor.now ∷ creditor.now ∷ class_digit.now ∷ to.now ∷ []) }
    ensures debt { IfOk result (λ r. r.debt.0 < length net.now.debts) }
{
    let stamp = number_up_to(MAX_STAMP, stamp)?;
    let debtor = bank_of(net, debtor)?;
    let creditor = bank_of(net, creditor)?;
    let class = class(class_digit).ok_or(FaultKind::Class)?;
    let debt = debt_named(net, debtor, creditor, class).ok_or(FaultKind::UnknownDebt)?;
    let to = number_up_to(MAX_CLAIM, to)?;
    Ok(Raise { stamp, debt, to })
}

// The debt of this debtor, creditor and class. Costs a walk of the debtor's row or of the
// creditor's column, whichever is shorter.
fn debt_named(net: &Network, debtor: BankId, creditor: BankId, class: u8) -> Option<DebtId>
    requires debtor { debtor.0 < length net.now.banks }
    requires creditor { creditor.0 < length net.now.banks }
    ensures place { option_map (λ id. id.0) result
        ≡ position (is_debt_of debtor.0 creditor.0 class) net.now.debts }
    ensures found { IfSome result (λ id. id.0 < length net.now.debts) }
{
    prove!(net.banks() <= clr_net::MAX_BANKS);
    let row = net.row(debtor);
    let column = net.column(creditor);
    if row.len() <= column.len() {
        one_of_kind(net, row, debtor, creditor, class)
    } else {
        one_of_kind(net, column, debtor, creditor, class)
    }
}

// The first of some debts that is of this debtor, creditor and class.
fn one_of_kind(
    net: &Network,
    ids: &[DebtId],
    debtor: BankId,
    creditor: BankId,
    class: u8,
) -> Option<DebtId>
    requires { All (λ x. x < length net.now.debts) (numbers ids.now) }
    ensures some { IfSome result (λ id.
        IsOfKind net.now id.0 debtor.0 creditor.0 class × (id.0 < length net.now.debts)) }
    ensures none { IfNone result
        (list_any (is_of_kind net.now debtor.0 creditor.0 class) (numbers ids.now) ≡ false) }
{
    for id in ids {
        if net.debt(*id).is_of(debtor, creditor, class) {
            return Some(*id);
        }
    }
    None
}

// The fields of a record of two.
fn two_fields(fields: &ByteRecord) -> Option<(&[u8], &[u8])>
    ensures { MatchOption result (length (fields_of fields.now) ≢ 2)
        (λ p. fields_of fields.now ≡ p.0.now ∷ p.1.now ∷ []) }
{
    if fields.len() != 2 {
        return None;
    }
    Some((field(fields, 0), field(fields, 1)))
}

// The fields of a record of five.
fn five_fields(fields: &ByteRecord) -> Option<(&[u8], &[u8], &[u8], &[u8], &[u8])>
    ensures { MatchOption result (length (fields_of fields.now) ≢ 5)
        (λ p. fields_of fields.now ≡ p.0.now ∷ p.1.now ∷ p.2.now ∷ p.3.now ∷ p.4.now ∷ []) }
{
    if fields.len() != 5 {
        return None;
    }
    Some((
        field(fields, 0),
        field(fields, 1),
        field(fields, 2),
        field(fields, 3),
        field(fields, 4),
    ))
}
