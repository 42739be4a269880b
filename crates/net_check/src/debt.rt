ghost use Rattle.clr_net.specs.Limits.{IsNewDebt};
ghost use Rattle.clr_net.specs.Net.{units_owed};
ghost use Rattle.clr_net.specs.declared.TheConstants.{MAX_DEBTS};
ghost use Rattle.net_check.specs.Field.{trimmed_field};
ghost use Rattle.net_check.specs.Record.{bank_in, debt_from, in_row};
ghost use Rattle.net_check.specs.Within.{most_owed};
ghost use Rattle.net_check.specs.declared.fault.FileKind.TheVariants as file;
ghost use Rattle.std.specs.Result.{result_map_both};
ghost use Rattle.std.specs.Prelude.{◌≡◌, ◌+◌, ◌<◌, ◌≤◌, [], ◌∷◌, length, map, IfOk};

use crate::fault::{Fault, FaultKind, FileKind};
use crate::field::{class, number_up_to, trimmed};
use crate::limits::Limits;
use clr_net::{BankId, Debt, MAX_CLAIM, Name, Network};

/// The debt of a record with these fields, which may then be added to a network within these limits,
/// by which all claims together may come to so many units; `Fault` is the first fault of the record,
/// with its row. The claim is in units.
///
/// Spaces and tabs at the ends of the fields are dropped. Takes no memory.
pub fn check_debt_within(
    by: Limits,
    net: &Network,
    row: u32,
    debtor: &[u8],
    creditor: &[u8],
    class: &[u8],
    claim: &[u8],
) -> Result<Debt, Fault>
    requires { length net.now.debts < MAX_DEBTS }
    ensures exact { let given = debtor.now ∷ creditor.now ∷ class.now ∷ claim.now ∷ [] in
        result ≡ in_row file.Debts row (debt_from by net.now (map trimmed_field given)) }
    ensures new { IfOk result (λ d. IsNewDebt net.now d) }
    ensures within { IfOk result (λ d. units_owed net.now + d.claim ≤ most_owed by) }
{
    debt_of(
        by,
        net,
        trimmed(debtor),
        trimmed(creditor),
        trimmed(class),
        trimmed(claim),
    )
    .map_err(|kind| Fault {
        file: FileKind::Debts,
        row,
        kind,
    })
}

// The debt of a record with these fields, or the first fault of the record.
fn debt_of(
    by: Limits,
    net: &Network,
    debtor: &[u8],
    creditor: &[u8],
    class_digit: &[u8],
    claim: &[u8],
) -> Result<Debt, FaultKind>
    ensures { let fields = debtor.now ∷ creditor.now ∷ class_digit.now ∷ claim.now ∷ [] in
        result ≡ debt_from by net.now fields }
{
    prove!(net.banks() <= clr_net::MAX_BANKS);
    let debtor = bank_of(net, debtor)?;
    let creditor = bank_of(net, creditor)?;
    if debtor == creditor {
        return Err(FaultKind::SelfDebt);
    }
    let class = class(class_digit).ok_or(FaultKind::Class)?;
    let claim = number_up_to(MAX_CLAIM, claim)?;
    if net.has_debt(debtor, creditor, class) {
        return Err(FaultKind::DoubleDebt);
    }
    if net.owed() + claim > by.owed() {
        return Err(FaultKind::Total);
    }
    Ok(Debt {
        debtor,
        creditor,
        class,
        claim,
    })
}

/// The bank that a field names. Spaces and tabs at its ends would be part of the name. Takes no
/// memory.
///
/// The name is looked up first: only one that no bank has is judged, `Name` where it is no name and
/// `UnknownBank` where it is one.
pub fn bank_of(net: &Network, field: &[u8]) -> Result<BankId, FaultKind>
    ensures bank { result_map_both (λ id. id.0) (λ k. k) result ≡ bank_in net.now field.now }
    ensures known { IfOk result (λ id. id.0 < length net.now.banks) }
{
    if let Some(id) = net.bank_named(field) {
        let known = id.0 < net.banks();
        prove!(known);
        return Ok(id);
    }
    if Name::accepts(field) {
        Err(FaultKind::UnknownBank)
    } else {
        Err(FaultKind::Name)
    }
}
