ghost use Rattle.clr_net.specs.Limits.{IsNetwork};
ghost use Rattle.costs.specs.CostStandings.{CostAddsUp, PaysFromKept, cost_standing};
ghost use Rattle.costs.specs.CostStandings.{cost_standings as standings_of};
ghost use Rattle.costs.specs.Costs.{CostClears};
ghost use Rattle.std.specs.Prelude.{◌≡◌, ◌<◌, ◌≤◌, ℕ, IfOk, OnOk, length};

use crate::kept::kept;
use crate::standing::CostStanding;
use cascade::health_at;
use clear_core::estate_of;
use clr_net::{BankId, Mem, Network};
use std::alloc::Global;

/// How each bank stands where so much is paid on each debt, in file order.
///
/// `paid` has a place for each debt, in file order, in units, and clears the network where a bank
/// that has not all that it owes keeps `keep` thousandths of its estate (Rogers and Veraart 2013).
/// What a bank loses, what it pays outside and its equity, of all banks together, are all opening
/// cash. `Mem` for want of memory alone. Costs at most two walks over the debts.
pub fn cost_standings(
    alloc: Global,
    net: &Network,
    keep: u32,
    paid: &[u64],
) -> Result<Vec<CostStanding>, Mem>
    requires clears { CostClears net.now keep paid.now }
    requires keep { keep ≤ 1000 }
    ensures standings { IfOk result (λ all. all.items ≡ standings_of net.now keep paid.now) }
    ensures pays_from_kept { OnOk result ((i : ℕ) → PaysFromKept net.now keep paid.now i) }
    ensures adds_up { OnOk result (CostAddsUp net.now keep paid.now) }
{
    let mut all = Vec::new(alloc);
    for number in 0..net.banks() {
        all.push(standing_of(net, keep, BankId(number), paid))?;
    }
    Ok(all)
}

// How one bank stands. Since payments clear, what it keeps tells what it pays on its debts.
fn standing_of(net: &Network, keep: u32, bank: BankId, paid: &[u64]) -> CostStanding
    requires network { IsNetwork net.now }
    requires keep { keep ≤ 1000 }
    requires bank { bank.0 < length net.now.banks }
    requires clears { CostClears net.now keep paid.now }
    ensures { result ≡ cost_standing net.now keep paid.now bank.0 }
{
    let owner = net.bank(bank);
    let estate = estate_of(net, bank, paid);
    let kept = kept(net, keep, bank, estate);
    let outside_paid = owner.outside.min(kept);
    let on_debts = net.owed_by(bank).min(kept - outside_paid);
    CostStanding {
        estate,
        lost: estate - kept,
        outside_paid,
        paid: on_debts,
        equity: kept - outside_paid - on_debts,
        health: health_at(net, bank, estate),
    }
}
