ghost use Rattle.cascade.specs.MoreCash.{IsOfOtherCash};
ghost use Rattle.clr_net.specs.Limits.{IsNetwork};
ghost use Rattle.clr_net.specs.declared.TheConstants.{MAX_CASH};
ghost use Rattle.std.specs.Prelude.{◌≡◌, ◌≤◌, ◌-◌, []};
ghost use Rattle.stress.specs.Shocks.{IsScenarioOf};
ghost use Rattle.stress.specs.Shocks.{after_cut as cash_after_cut, after_shock, shocked as shocked_net};
ghost use Rattle.stress.specs.declared.TheConstants.{MAX_CUT};

use crate::scenario::Scenario;
use clr_net::{BankId, Network};

/// Makes a copy of a network, whatever cash its banks have by now, the network that a scenario
/// leaves of the first: each bank keeps `cash - cash * cut / 1000`, with the quotient rounded down,
/// less its loss, and not less than nothing.
///
/// All else is as before. Such shocks to what banks have from outside are those of Glasserman and
/// Young (2015). Takes no memory. Costs a step for each bank and each loss.
pub fn shock_again(net: &Network, scenario: &Scenario, left: &mut Network)
    requires scenario { IsScenarioOf net.now scenario.now }
    requires alike { IsOfOtherCash net.now left.old }
    ensures left { left.new ≡ shocked_net net.now scenario.now }
    ensures alike { IsOfOtherCash net.now left.new }
{
    cut_cash(net, scenario.cut, left);
    for loss in scenario.losses.as_slice() {
        let cash = left.bank(loss.bank).cash;
        left.set_cash(loss.bank, after_loss(cash, loss.amount));
    }
}

// Leaves each bank of a copy what a cut leaves of its cash in the network.
pub(crate) fn cut_cash(net: &Network, cut: u32, left: &mut Network)
    requires cut { cut ≤ MAX_CUT }
    requires alike { IsOfOtherCash net.now left.old }
    ensures network { IsNetwork net.now }
    ensures left { left.new ≡ after_shock cut [] net.now }
{
    for number in 0..net.banks() {
        let bank = BankId(number);
        let cash = net.bank(bank).cash;
        left.set_cash(bank, after_cut(cash, cut));
    }
}

// What a cut leaves of some cash.
fn after_cut(cash: u64, cut: u32) -> u64
    requires cash { cash ≤ MAX_CASH }
    requires cut { cut ≤ MAX_CUT }
    ensures left { result ≡ cash_after_cut cut cash }
    ensures no_more { result ≤ cash }
{
    cash - cash * u64::from(cut) / 1000
}

// What a loss leaves of some cash: not less than nothing.
fn after_loss(cash: u64, loss: u64) -> u64
    ensures { result ≡ cash - loss }
{
    cash.saturating_sub(loss)
}
