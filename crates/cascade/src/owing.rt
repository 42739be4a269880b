ghost use Rattle.cascade.specs.Standings.{due as due_of, health_at as health_at_of, worth as worth_of};
ghost use Rattle.clr_net.specs.Limits.{IsNetwork};
ghost use Rattle.std.specs.Prelude.{◌≡◌, ◌<◌, length};

use crate::standing::Health;
use clr_net::{BankId, Network};

/// All that a bank owes, on its debts and outside the network, in units. Takes no memory.
pub fn due(net: &Network, bank: BankId) -> u64
    requires network { IsNetwork net.now }
    requires bank { bank.0 < length net.now.banks }
    ensures { result ≡ due_of net.now bank.0 }
{
    net.owed_by(bank) + net.bank(bank).outside
}

/// What a bank would have if all its debtors paid it in full, in units. Takes no memory.
pub fn worth(net: &Network, bank: BankId) -> u64
    requires network { IsNetwork net.now }
    requires bank { bank.0 < length net.now.banks }
    ensures { result ≡ worth_of net.now bank.0 }
{
    let mut total = net.bank(bank).cash;
    for id in net.column(bank) {
        total += net.debt(*id).claim;
    }
    total
}

/// How a bank stands that has such an estate: sound where it has all that it owes, and in default
/// where it has less. Takes no memory.
pub fn health_at(net: &Network, bank: BankId, estate: u64) -> Health
    requires network { IsNetwork net.now }
    requires bank { bank.0 < length net.now.banks }
    ensures { result ≡ health_at_of net.now bank.0 estate }
{
    let due = due(net, bank);
    if due <= estate {
        Health::Sound
    } else if worth(net, bank) < due {
        Health::Fundamental
    } else {
        Health::Contagion
    }
}
