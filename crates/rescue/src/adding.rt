ghost use Rattle.clr_net.specs.Net.{cash_of};
ghost use Rattle.clr_net.specs.declared.TheConstants.{MAX_CASH};
ghost use Rattle.rescue.specs.Rescue.{added as added_net};
ghost use Rattle.std.specs.Prelude.{◌≡◌, ◌+◌, ◌<◌, ◌≤◌, IfOk, length};

use clr_net::{BankId, Mem, Network};
use std::alloc::Global;

/// The network with so many units more cash at a bank, and all else as before.
///
/// Copies the network, and changes one number. `Mem` for want of memory alone.
pub fn added(alloc: Global, net: &Network, bank: BankId, sum: u64) -> Result<Network, Mem>
    requires bank { bank.0 < length net.now.banks }
    requires cash { cash_of net.now bank.0 + sum ≤ MAX_CASH }
    ensures { IfOk result (λ more. more ≡ added_net net.now bank.0 sum) }
{
    let mut more = net.copy(alloc)?;
    more.set_cash(bank, net.bank(bank).cash + sum);
    Ok(more)
}
