ghost use Rattle.clear_core.specs.Clearing.{spend as spend_of};
ghost use Rattle.clr_net.specs.Limits.{IsNetwork};
ghost use Rattle.clr_net.specs.Net.{Net};
ghost use Rattle.clr_net.specs.declared.TheConstants.{MAX_CLAIM, MAX_DEBTS};
ghost use Rattle.std.specs.Prelude.{◌≡◌, ◌*◌, ◌<◌, ◌≤◌, ℕ, length};

use clr_net::{BankId, Network};

/// What each bank of a network divides among its debts, of what it receives.
pub trait Spending {
    /// The units that the bank of this number divides when it receives so many.
    ghost spends: { Self → Net → ℕ → ℕ → ℕ };

    /// What a bank divides when it receives so many units. Takes no memory.
    fn spend(&self, net: &Network, bank: BankId, receipts: u64) -> u64
        requires network { IsNetwork net.now }
        requires bank { bank.0 < length net.now.banks }
        requires receipts { receipts ≤ MAX_DEBTS * MAX_CLAIM }
        ensures { result ≡ spends self.now net.now bank.0 receipts };
}

/// Default costs nothing: a bank divides its cash and all that it receives, less what it owes
/// outside the network.
#[derive(Clone, Copy, Debug)]
pub struct WithoutCosts;

impl Spending for WithoutCosts {
    ghost spends = { λ s net. spend_of net };

    fn spend(&self, net: &Network, bank: BankId, receipts: u64) -> u64 {
        clear_core::spend(net, bank, receipts)
    }
}
