ghost use Rattle.cascade.specs.Standings.{AddsUp, PaysOut, owed_by, standing, standings};
ghost use Rattle.clear_core.specs.Clearing.{Clears, paid_by as paid_by_bank, receipts};
ghost use Rattle.clear_core.specs.Sums.{HaveSums};
ghost use Rattle.clr_net.specs.Limits.{IsNetwork};
ghost use Rattle.clr_net.specs.Net.{cash_of, outside_of};
ghost use Rattle.clr_net.specs.declared.TheConstants.{MAX_CLAIM, MAX_DEBTS};
ghost use Rattle.std.specs.Prelude.{◌≡◌, ◌+◌, ◌-◌, ◌*◌, ◌<◌, ◌≤◌, ℕ, IfOk, List, OnOk, length, min};

use crate::owing::health_at;
use crate::standing::Standing;
use clear_core::{Payments, Sums, paid_by, receipts_of};
use clr_net::{BankId, Mem, Network};
use std::alloc::Global;

/// How each bank stands where so much is paid on each debt, in file order.
///
/// `paid` has a place for each debt, in file order, in units, and clears the network (Eisenberg and
/// Noe 2001). A bank that is not sound is in default. `Mem` for want of memory alone. Costs a few
/// walks over the debts.
pub fn defaults(alloc: Global, net: &Network, paid: &[u64]) -> Result<Vec<Standing>, Mem>
    requires { Clears net.now paid.now }
    ensures standings { IfOk result (λ all. all.items ≡ standings net.now paid.now) }
    ensures pays_out { OnOk result ((i : ℕ) → PaysOut net.now paid.now i) }
    ensures adds_up { OnOk result (AddsUp net.now paid.now) }
{
    let mut all = Vec::new(alloc);
    for number in 0..net.banks() {
        let bank = BankId(number);
        let sums = Sums {
            received: receipts_of(net, bank, paid),
            paid: paid_by(net, bank, paid),
        };
        all.push(standing_of(net, bank, sums))?;
    }
    Ok(all)
}

/// What [`defaults`] tells, from payments that have their sums. `Mem` for want of memory alone. Costs
/// a look at each bank, and at all that is owed to each bank in default.
pub fn defaults_by(alloc: Global, net: &Network, payments: &Payments) -> Result<Vec<Standing>, Mem>
    requires clears { Clears net.now payments.now.paid }
    requires sums { HaveSums net.now payments.now }
    ensures { IfOk result (λ all. all.items ≡ standings net.now payments.now.paid) }
{
    let mut all = Vec::new(alloc);
    for number in 0..net.banks() {
        all.push(standing_of(net, BankId(number), payments.sums[number as usize]))?;
    }
    Ok(all)
}

// How one bank stands, which receives and pays so much: all that it owes, or what its outside claim
// leaves it.
fn standing_of(net: &Network, bank: BankId, sums: Sums) -> Standing
    requires network { IsNetwork net.now }
    requires bank { bank.0 < length net.now.banks }
    requires received { sums.received ≤ MAX_DEBTS * MAX_CLAIM }
    requires pays { sums.paid ≡ min (owed_by net.now bank.0)
        (cash_of net.now bank.0 + sums.received - outside_of net.now bank.0) }
    ensures { (P : List ℕ) → sums.received ≡ receipts net.now P bank.0
        → sums.paid ≡ paid_by_bank net.now P bank.0 → result ≡ standing net.now P bank.0 }
{
    let owner = net.bank(bank);
    let outside = owner.outside;
    let estate = owner.cash + sums.received;
    let outside_paid = outside.min(estate);
    let equity = estate - outside_paid - sums.paid;
    let owed = net.owed_by(bank);
    Standing {
        estate,
        outside,
        outside_paid,
        paid: sums.paid,
        owed,
        equity,
        health: health_at(net, bank, estate),
    }
}
