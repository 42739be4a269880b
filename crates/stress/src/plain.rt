//! What the program does not call, for whoever calls the crate: a network of its own for a scenario,
//! and all cuts gone through one after another. The program shocks one copy again and again, and
//! shares the cuts out among threads.
ghost use Rattle.cascade.specs.Standings.{bank_numbers};
ghost use Rattle.std.specs.Prelude.{◌≡◌, IfOk, map};
ghost use Rattle.stress.specs.Breaking.{breaking as breaking_of};
ghost use Rattle.stress.specs.Shocks.{IsScenarioOf, KeepsAllButCash, shocked as shocked_net};

use crate::MAX_CUT;
use crate::broken::{Broken, breaking_within};
use crate::scenario::Scenario;
use crate::shock::shock_again;
use clr_net::{Mem, Network};
use std::alloc::Global;

/// The network that a scenario leaves: each bank keeps `cash - cash * cut / 1000`, with the
/// quotient rounded down, less its loss, and not less than nothing.
///
/// All else is as before. Such shocks to what banks have from outside are those of Glasserman and
/// Young (2015). `Mem` for want of memory alone. Costs a copy of the network, and a step for each
/// bank and each loss.
pub fn shocked(alloc: Global, net: &Network, scenario: &Scenario) -> Result<Network, Mem>
    requires { IsScenarioOf net.now scenario.now }
    ensures left { IfOk result (λ left. left ≡ shocked_net net.now scenario.now) }
    ensures kept { IfOk result (λ left. KeepsAllButCash net.now left) }
{
    let mut left = net.copy(alloc)?;
    shock_again(net, scenario, &mut left);
    Ok(left)
}

/// The least cut of all cash that breaks each bank, and how the bank stands at it, in file order.
///
/// A bank is broken where it does not pay all that it owes, under the least payments that clear
/// (Eisenberg and Noe 2001) once each bank has lost the cut. `Mem` for want of memory alone.
///
/// Costs what [`breaking_within`] does.
pub fn breaking(alloc: Global, net: &Network) -> Result<Vec<Broken>, Mem>
    ensures { IfOk result (λ all. all.items ≡ map (breaking_of net.now) (bank_numbers net.now)) }
{
    breaking_within(alloc, net, 0, MAX_CUT as u32 + 1)
}
