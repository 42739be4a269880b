ghost use Rattle.costs.specs.Costs.{cost_spend};
ghost use Rattle.std.specs.Prelude.{◌≤◌};

use crate::kept::kept;
use clear_least::Spending;
use clr_net::{BankId, Network};

// A bank divides what it keeps of its cash and receipts, less what it owes outside the network.
#[derive(Drop)]
pub(crate) struct WithCosts {
    // The thousandths that a bank keeps of its estate, where it has not all that it owes.
    pub(crate) keep: u32,
    ghost within: { keep ≤ 1000 },
}

impl Spending for WithCosts {
    ghost spends = { λ s net. cost_spend net s.keep };

    fn spend(&self, net: &Network, bank: BankId, receipts: u64) -> u64 {
        let owner = net.bank(bank);
        kept(net, self.keep, bank, owner.cash + receipts).saturating_sub(owner.outside)
    }
}
