ghost use Rattle.clr_net.specs.Limits.{IsNetwork};
ghost use Rattle.clr_net.specs.declared.TheConstants.{MAX_CASH, MAX_CLAIM, MAX_DEBTS};
ghost use Rattle.costs.specs.Costs.{kept as kept_of};
ghost use Rattle.std.specs.Prelude.{◌≡◌, ◌+◌, ◌*◌, ◌<◌, ◌≤◌, length};

use cascade::due;
use clr_net::{BankId, Network};

// What a bank keeps of an estate, where so many thousandths are kept on default.
pub(crate) fn kept(net: &Network, keep: u32, bank: BankId, estate: u64) -> u64
    requires network { IsNetwork net.now }
    requires keep { keep ≤ 1000 }
    requires bank { bank.0 < length net.now.banks }
    requires estate { estate ≤ MAX_CASH + MAX_DEBTS * MAX_CLAIM }
    ensures { result ≡ kept_of net.now keep bank.0 estate }
{
    if due(net, bank) <= estate {
        estate
    } else {
        estate * keep as u64 / 1000
    }
}
