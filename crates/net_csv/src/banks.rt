ghost use Rattle.clr_net.specs.Limits.{IsNewBank};
ghost use Rattle.csv.specs.Records.{fields_of};
ghost use Rattle.net_check.specs.declared.fault.Fault.{Fault};
ghost use Rattle.net_csv.specs.Reading.{bank_in_row, trimmed_fields, with_row};
ghost use Rattle.net_csv.specs.declared.layout.Layout.{Layout};
ghost use Rattle.std.specs.Prelude.{◌≡◌, ◌↔◌, Ok, Err, IfOk, OnOk, IsErrOf};

use crate::layout::Version;
use crate::records::{fault, four_fields, three_fields};
use clr_net::{Bank, Network};
use csv::ByteRecord;
use net_check::{FaultKind, FileKind, Limits, ReadNet, check_bank};
use std::alloc::Global;

/// Adds the bank of a record that is not blank to a network, by these limits. `Refused` comes
/// exactly where there is a fault, `Mem` only where there is none.
pub(crate) fn add_bank(
    alloc: Global,
    by: Limits,
    net: &mut Network,
    version: Version,
    row: u32,
    fields: &ByteRecord,
) -> Result<(), ReadNet>
    ensures read { let said = trimmed_fields (fields_of fields.now) in
        OnOk result (with_row by (Layout.Banks version) net.old (row, said) ≡ Ok net.new) }
    ensures refused { let said = trimmed_fields (fields_of fields.now) in
        (f : Fault) → IsErrOf result (ReadNet.Refused f)
        ↔ (with_row by (Layout.Banks version) net.old (row, said) ≡ Err f) }
{
    let bank = bank_of(alloc, by, net, version, row, fields)?;
    match net.add_bank(bank) {
        Ok(_) => Ok(()),
        Err(_) => Err(ReadNet::Mem),
    }
}

// The bank of a record that is not blank, by these limits.
fn bank_of(
    alloc: Global,
    by: Limits,
    net: &Network,
    version: Version,
    row: u32,
    fields: &ByteRecord,
) -> Result<Bank, ReadNet>
    ensures bank { let said = trimmed_fields (fields_of fields.now) in
        IfOk result (λ b. bank_in_row by version net.now (row, said) ≡ Ok b) }
    ensures new { IfOk result (IsNewBank net.now) }
    ensures refused { let said = trimmed_fields (fields_of fields.now) in
        (f : Fault) → IsErrOf result (ReadNet.Refused f)
        ↔ (bank_in_row by version net.now (row, said) ≡ Err f) }
{
    if net.banks() >= by.banks() {
        return Err(ReadNet::Refused(fault(FileKind::Banks, row, FaultKind::TooMany)));
    }
    match version {
        Version::One => match three_fields(fields) {
            Some((name, cash, rule)) => check_bank(alloc, net, row, name, cash, rule, None),
            None => Err(ReadNet::Refused(fault(FileKind::Banks, row, FaultKind::Fields))),
        },
        Version::Two => match four_fields(fields) {
            Some((name, cash, rule, outside)) => {
                check_bank(alloc, net, row, name, cash, rule, Some(outside))
            }
            None => Err(ReadNet::Refused(fault(FileKind::Banks, row, FaultKind::Fields))),
        },
    }
}
