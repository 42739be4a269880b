//! What the program does not call, for whoever calls the crate: clearing that goes on from payments
//! whose sums nobody kept. The program keeps them, and calls [`least_again`](crate::least_again).
ghost use Rattle.clear_core.specs.Clearing.{IsLeast, least, pay};
ghost use Rattle.clr_net.specs.Amounts.{IsAtMost};
ghost use Rattle.std.specs.Prelude.{◌≡◌, IfOk, length};

use crate::spending::WithoutCosts;
use crate::sweep::least_by;
use clr_net::{Amounts, Mem, Network};
use std::alloc::Global;

/// The least payments that clear the network, one for each debt, in file order, in units; from
/// payments that are known to be on the way: at or below the least, and such that all banks would
/// pay no less. So what was cleared once is not paid anew when a bank has more cash.
///
/// `from` has a place for each debt, in file order, in units. Costs what [`least_by`] does, and
/// takes one list over the debts more. `Err` is want of memory.
pub fn least_from(alloc: Global, net: &Network, from: &[u64]) -> Result<Amounts, Mem>
    requires over { length from.now ≡ length net.now.debts }
    requires rises { IsAtMost from.now (pay net.now from.now) }
    requires below { IsAtMost from.now (least net.now) }
    ensures payments { IfOk result (λ paid. paid ≡ least net.now) }
    ensures least { IfOk result (λ paid. IsLeast net.now paid) }
{
    let paid = Amounts::copy_of(alloc, from)?;
    least_by(alloc, net, &WithoutCosts, paid)
}
