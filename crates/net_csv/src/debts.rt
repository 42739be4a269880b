ghost use Rattle.clr_net.specs.Limits.{IsNewDebt};
ghost use Rattle.csv.specs.Records.{fields_of};
ghost use Rattle.net_check.specs.declared.fault.Fault.{Fault};
ghost use Rattle.net_csv.specs.Reading.{debt_in_row, trimmed_fields, with_row};
ghost use Rattle.net_csv.specs.declared.layout.Layout.{Layout};
ghost use Rattle.std.specs.Prelude.{◌≡◌, ◌↔◌, Ok, Err, IfOk, OnOk, IsErrOf};

use crate::records::{fault, four_fields};
use clr_net::{Debt, Network};
use csv::ByteRecord;
use net_check::{Fault, FaultKind, FileKind, Limits, ReadNet, check_debt_within};

/// Adds the debt of a record that is not blank to a network, by these limits. `Refused` comes
/// exactly where there is a fault, `Mem` only where there is none.
pub(crate) fn add_debt(
    by: Limits,
    net: &mut Network,
    row: u32,
    fields: &ByteRecord,
) -> Result<(), ReadNet>
    ensures read { let said = trimmed_fields (fields_of fields.now) in
        OnOk result (with_row by Layout.Debts net.old (row, said) ≡ Ok net.new) }
    ensures refused { let said = trimmed_fields (fields_of fields.now) in
        (f : Fault) → IsErrOf result (ReadNet.Refused f)
        ↔ (with_row by Layout.Debts net.old (row, said) ≡ Err f) }
{
    match debt_of(by, net, row, fields) {
        Ok(debt) => match net.add_debt(debt) {
            Ok(_) => Ok(()),
            Err(_) => Err(ReadNet::Mem),
        },
        Err(fault) => Err(ReadNet::Refused(fault)),
    }
}

// The debt of a record that is not blank, by these limits.
fn debt_of(by: Limits, net: &Network, row: u32, fields: &ByteRecord) -> Result<Debt, Fault>
    ensures debt { result
        ≡ debt_in_row by net.now (row, trimmed_fields (fields_of fields.now)) }
    ensures new { IfOk result (IsNewDebt net.now) }
{
    if net.debts() >= by.debts() {
        return Err(fault(FileKind::Debts, row, FaultKind::TooMany));
    }
    match four_fields(fields) {
        Some((debtor, creditor, class, claim)) => {
            check_debt_within(by, net, row, debtor, creditor, class, claim)
        }
        None => Err(fault(FileKind::Debts, row, FaultKind::Fields)),
    }
}
