//! What the program does not call, for whoever calls the crate: the network with the claims that
//! are left, as one value. The program prints those claims.
ghost use Rattle.clr_net.specs.Amounts.{IsAtMost};
ghost use Rattle.clr_net.specs.Claims.{all_claims, with_claims as net_with_claims};
ghost use Rattle.compress.specs.Banks.{banks_alone as without_debts};
ghost use Rattle.std.specs.Prelude.{◌≡◌, IfOk, length};

use clr_net::{BankId, Debt, DebtId, Mem, Network};
use std::alloc::Global;

/// The network with these claims, and all else as before, in a network of its own.
///
/// `claims` has a place for each debt, in file order, in units, and none is above the debt's claim
/// so far. `Mem` for want of memory alone. Costs a walk over the banks and one over the debts.
pub fn with_claims(alloc: Global, net: &Network, claims: &[u64]) -> Result<Network, Mem>
    requires as_many { length claims.now ≡ length net.now.debts }
    requires within { IsAtMost claims.now (all_claims net.now) }
    ensures { IfOk result (λ made. made ≡ net_with_claims net.now claims.now) }
{
    let mut made = banks_alone(alloc, net)?;
    for number in 0..net.debts() {
        let claim = claims[number as usize];
        made.add_debt(Debt {
            claim,
            ..net.debt(DebtId(number))
        })?;
    }
    Ok(made)
}

// A network of the same banks, with no debt between them.
fn banks_alone(alloc: Global, net: &Network) -> Result<Network, Mem>
    ensures { IfOk result (λ made. made ≡ without_debts net.now) }
{
    let mut made = Network::empty(alloc);
    for bank in 0..net.banks() {
        let bank = net.bank(BankId(bank)).copy(alloc)?;
        if made.add_bank(bank).is_err() {
            return Err(Mem);
        }
    }
    Ok(made)
}
