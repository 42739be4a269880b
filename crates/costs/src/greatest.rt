ghost use Rattle.clr_net.specs.Amounts.{IsAtMost};
ghost use Rattle.costs.specs.Costs.{IsCostGreatest, cost_greatest};
ghost use Rattle.std.specs.Prelude.{◌≡◌, ◌≤◌, IfOk};
ghost use Rattle.upper.specs.Bounds.{greatest as greatest_of};

use crate::with_costs::WithCosts;
use clr_net::{Amounts, Mem, Network};
use std::alloc::Global;
use upper::greatest_by;

/// The greatest payments that clear the network where default costs: one for each debt, in file
/// order, in units.
///
/// A bank that has not all that it owes keeps `keep` thousandths of its estate, rounded down. They
/// are the greatest clearing vector of Rogers and Veraart (2013), with one figure for the whole
/// estate, and nowhere greater than where default costs nothing. `Err` is want of memory. Takes
/// memory, and costs, as [`greatest_by`] does: a bank divides anew only where its receipts fell in
/// the round before.
pub fn greatest_with_costs(alloc: Global, net: &Network, keep: u32) -> Result<Amounts, Mem>
    requires { keep ≤ 1000 }
    ensures payments { IfOk result (λ paid. paid ≡ cost_greatest net.now keep) }
    ensures greatest { IfOk result (λ paid. IsCostGreatest net.now keep paid) }
    ensures at_most { IfOk result (λ paid. IsAtMost paid (greatest_of net.now)) }
{
    greatest_by(alloc, net, &WithCosts { keep })
}
