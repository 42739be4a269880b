ghost use Rattle.clear_core.specs.Buffers.{AreInLimit};
ghost use Rattle.clear_core.specs.Clearing.{estate, paid_by as paid_by_bank};
ghost use Rattle.clear_core.specs.Clearing.{receipts as receipts_in, spend as spend_of};
ghost use Rattle.clear_core.specs.Clearing.{spendable as spendable_of};
ghost use Rattle.clr_net.specs.Limits.{IsNetwork};
ghost use Rattle.clr_net.specs.declared.TheConstants.{MAX_CASH, MAX_CLAIM, MAX_DEBTS};
ghost use Rattle.std.specs.Prelude.{◌≡◌, ◌+◌, ◌*◌, ◌^◌, ◌<◌, ◌≤◌, length};

use clr_net::{BankId, Network};

/// What a bank receives, in units, where so much is paid on each debt.
///
/// `paid` has a place for each debt, in file order, in units. Takes no memory.
pub fn receipts_of(net: &Network, bank: BankId, paid: &[u64]) -> u64
    requires bank { bank.0 < length net.now.banks }
    requires over { length paid.now ≡ length net.now.debts }
    requires paid_in_limit { AreInLimit paid.now }
    ensures receipts { result ≡ receipts_in net.now paid.now bank.0 }
    ensures in_limit { result ≤ MAX_DEBTS * MAX_CLAIM }
{
    prove!(bank.0 < net.banks());
    let mut received = 0;
    for id in net.column(bank) {
        received += paid[id.0 as usize];
    }
    received
}

/// What a bank pays on its debts, in units, where so much is paid on each debt.
///
/// `paid` has a place for each debt, in file order, in units. Takes no memory.
pub fn paid_by(net: &Network, bank: BankId, paid: &[u64]) -> u64
    requires network { IsNetwork net.now }
    requires bank { bank.0 < length net.now.banks }
    requires over { length paid.now ≡ length net.now.debts }
    requires paid_in_limit { AreInLimit paid.now }
    ensures { result ≡ paid_by_bank net.now paid.now bank.0 }
{
    let mut total = 0;
    for id in net.row(bank) {
        total += paid[id.0 as usize];
    }
    total
}

/// What a bank has, in units, where so much is paid on each debt: its cash and what it receives.
///
/// `paid` has a place for each debt, in file order, in units. Takes no memory.
pub fn estate_of(net: &Network, bank: BankId, paid: &[u64]) -> u64
    requires bank { bank.0 < length net.now.banks }
    requires over { length paid.now ≡ length net.now.debts }
    requires paid_in_limit { AreInLimit paid.now }
    ensures estate { result ≡ estate net.now paid.now bank.0 }
    ensures in_limit { result ≤ MAX_CASH + MAX_DEBTS * MAX_CLAIM }
{
    prove!(bank.0 < net.banks());
    net.bank(bank).cash + receipts_of(net, bank, paid)
}

/// What a bank divides among its debts, in units: its cash and its receipts, less what it owes
/// outside the network, which ranks before all its debts (Eisenberg and Noe 2001), and nothing
/// where that is more. Takes no memory.
pub fn spendable(cash: u64, outside: u64, receipts: u64) -> u64
    requires { cash + receipts < 2 ^ 64 }
    ensures { result ≡ spendable_of cash outside receipts }
{
    (cash + receipts).saturating_sub(outside)
}

/// What a bank of a network divides among its debts when it receives so many units. Takes no
/// memory.
pub fn spend(net: &Network, bank: BankId, receipts: u64) -> u64
    requires bank { bank.0 < length net.now.banks }
    requires receipts { receipts ≤ MAX_DEBTS * MAX_CLAIM }
    ensures { result ≡ spend_of net.now bank.0 receipts }
{
    prove!(bank.0 < net.banks());
    let bank = net.bank(bank);
    spendable(bank.cash, bank.outside, receipts)
}
