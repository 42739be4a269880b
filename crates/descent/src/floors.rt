ghost use Rattle.clr_net.specs.Limits.{IsNetwork};
ghost use Rattle.clr_net.specs.Net.{Net};
ghost use Rattle.clr_net.specs.declared.TheConstants.{MAX_CASH};
ghost use Rattle.std.specs.Prelude.{◌≡◌, ◌<◌, ◌≤◌, ℕ, length};

use clr_net::{BankId, Network};

/// Networks that differ in cash alone, which are numbered from 0, by the least cash that each bank
/// has in a share of them.
pub trait Floors {
    /// They are of this network, in another cash of which they differ.
    ghost of: { Self → Net → Type 0 };

    /// How many they are.
    ghost size: { Self → Net → ℕ };

    /// The least cash of a bank in those from one number up to below another.
    ghost floors: { Self → Net → ℕ → ℕ → ℕ → ℕ };

    /// How many they are.
    fn count(&self, net: &Network) -> u32
        requires { of self.now net.now }
        ensures { result ≡ size self.now net.now };

    /// The least cash of a bank in the networks from `low` up to below `high`, in units. Takes no
    /// memory.
    fn floor(&self, net: &Network, low: u32, high: u32, bank: BankId) -> u64
        requires network { IsNetwork net.now }
        requires of { of self.now net.now }
        requires not_empty { low < high }
        requires share { high ≤ size self.now net.now }
        requires bank { bank.0 < length net.now.banks }
        ensures floor { result ≡ floors self.now net.now low high bank.0 }
        ensures in_limit { result ≤ MAX_CASH };
}
