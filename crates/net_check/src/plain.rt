//! What the program does not call, for whoever calls the crate: a record checked by the standard
//! limits. The program is told the limits, and calls [`check_debt_within`].
ghost use Rattle.clr_net.specs.Limits.{IsNewDebt};
ghost use Rattle.clr_net.specs.declared.TheConstants.{MAX_DEBTS};
ghost use Rattle.net_check.specs.Field.{trimmed_field};
ghost use Rattle.net_check.specs.Record.{debt_from, in_row};
ghost use Rattle.net_check.specs.declared.fault.FileKind.TheVariants as file;
ghost use Rattle.net_check.specs.declared.limits.Limits.TheVariants as limits;
ghost use Rattle.std.specs.Prelude.{◌≡◌, ◌<◌, [], ◌∷◌, length, map, IfOk};

use crate::debt::check_debt_within;
use crate::fault::Fault;
use crate::limits::Limits;
use clr_net::{Debt, Network};

/// The debt of a record with these fields, which may then be added to a network within the standard
/// limits; `Fault` is the first fault of the record, with its row. The claim is in units.
///
/// Spaces and tabs at the ends of the fields are dropped. Takes no memory.
pub fn check_debt(
    net: &Network,
    row: u32,
    debtor: &[u8],
    creditor: &[u8],
    class: &[u8],
    claim: &[u8],
) -> Result<Debt, Fault>
    requires { length net.now.debts < MAX_DEBTS }
    ensures exact { let given = debtor.now ∷ creditor.now ∷ class.now ∷ claim.now ∷ [] in
        let fields = map trimmed_field given in
        result ≡ in_row file.Debts row (debt_from limits.Standard net.now fields) }
    ensures new { IfOk result (λ d. IsNewDebt net.now d) }
{
    check_debt_within(Limits::Standard, net, row, debtor, creditor, class, claim)
}
