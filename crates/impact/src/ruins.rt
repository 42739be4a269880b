//! What the ruin of each bank does, by halves of all banks: a clearing without the cash of many banks
//! goes on where half of them have it again.
ghost use Rattle.cascade.specs.Ruin.{CostsItsCash};
ghost use Rattle.cascade.specs.Standings.{standings};
ghost use Rattle.clear_core.specs.Clearing.{least};
ghost use Rattle.clr_net.specs.Net.{cash_of};
ghost use Rattle.impact.specs.Impact.{IsImpactOf};
ghost use Rattle.impact.specs.Ruined.{IsDescentByRuins, between, least_left};
ghost use Rattle.std.specs.Prelude.{◌≡◌, ◌+◌, ◌<◌, IfOk, length};

use crate::compare::Ruin;
use crate::hurt::Impact;
use cascade::Standing;
use clr_net::{BankId, Mem, Network};
use descent::{Descent, Floors};
use std::alloc::Global;

/// What the ruin of a bank does: it loses all its cash, and the least payments that clear then are
/// made.
///
/// `before` is how each bank stands under the least payments of the network as it is, in file order.
/// `Mem` for want of memory alone, after which the descent serves as before.
///
/// Any bank may be asked for after any other. In file order each clearing goes on from one without
/// the cash of twice as many banks, and first visits those alone that have it again. Costs a walk
/// over the debts, and takes some lists over the banks and one over the debts for each step. A bank
/// without cash changes no payment, and costs a walk over the banks.
pub fn impact_of(
    alloc: Global,
    net: &Network,
    descent: &mut Descent,
    before: &[Standing],
    bank: BankId,
) -> Result<Impact, Mem>
    requires bank { bank.0 < length net.now.banks }
    requires descent { IsDescentByRuins net.now descent.old }
    requires before { before.now ≡ standings net.now (least net.now) }
    ensures descent { IsDescentByRuins net.now descent.new }
    ensures impact { IfOk result (IsImpactOf net.now bank.0) }
    ensures cash { IfOk result (λ m. m.own + m.others ≡ cash_of net.now bank.0) }
    ensures costs { CostsItsCash net.now bank.0 }
{
    prove!(bank.0 < net.banks());
    if net.bank(bank).cash == 0 {
        let ruin = Ruin {
            net,
            before,
            after: before,
            ruined: bank,
        };
        return ruin.impact(alloc);
    }
    let after = descent.standings_at(alloc, net, &Ruins, bank.0)?;
    let ruin = Ruin {
        net,
        before,
        after: after.as_slice(),
        ruined: bank,
    };
    ruin.impact(alloc)
}

// The ruins of all banks of a network: where it is numbered as a bank, that bank has lost its cash.
#[derive(Drop)]
struct Ruins;

impl Floors for Ruins {
    ghost of = { λ ruins net. Unit {0} };

    ghost size = { λ ruins net. length net.banks };

    ghost floors = { λ ruins net. least_left net };

    fn count(&self, net: &Network) -> u32 {
        net.banks()
    }

    fn floor(&self, net: &Network, low: u32, high: u32, bank: BankId) -> u64 {
        if is_between(low, high, bank.0) {
            return 0;
        }
        net.bank(bank).cash
    }
}

// Whether a number is from `low` on, and below `high`.
fn is_between(low: u32, high: u32, number: u32) -> bool
    ensures { result ≡ between low high number }
{
    low <= number && number < high
}
