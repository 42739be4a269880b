ghost use Rattle.clear_core.specs.Clearing.{least as least_of};
ghost use Rattle.clr_net.specs.Amounts.{IsAtMost};
ghost use Rattle.costs.specs.Costs.{IsCostLeast, cost_least};
ghost use Rattle.std.specs.Prelude.{◌≡◌, ◌≤◌, IfOk};

use crate::with_costs::WithCosts;
use clear_least::least_by;
use clr_net::{Amounts, Mem, Network};
use std::alloc::Global;

/// The least payments that clear the network where default costs: one for each debt, in file order,
/// in units.
///
/// A bank that has not all that it owes keeps `keep` thousandths of its estate, rounded down
/// (Rogers and Veraart 2013). The payments are nowhere greater than where default costs nothing.
/// Takes memory at the start alone, a list over the debts and one over the banks beside the buffers
/// of one division, and `Err` is want of it. Costs for each payment that rises at most one visit of
/// its creditor, which goes over what that bank is owed and owes, and for each sweep a look at each
/// bank's mark.
pub fn least_with_costs(alloc: Global, net: &Network, keep: u32) -> Result<Amounts, Mem>
    requires { keep ≤ 1000 }
    ensures payments { IfOk result (λ paid. paid ≡ cost_least net.now keep) }
    ensures least { IfOk result (λ paid. IsCostLeast net.now keep paid) }
    ensures at_most { IfOk result (λ paid. IsAtMost paid (least_of net.now)) }
{
    let none = Amounts::zeros(alloc, net.debts() as usize)?;
    least_by(alloc, net, &WithCosts { keep }, none)
}
