// The parts of a network's copy: its accounts, and the index of their names.
ghost use Rattle.clr_net.specs.Accounts.{shown};
ghost use Rattle.clr_net.specs.Kept.{HaveOwnNames, net_of};
ghost use Rattle.std.specs.Prelude.{◌≡◌, [], map, IfOk};

use crate::Mem;
use crate::account::Account;
use indexmap::IndexSet;
use std::alloc::Global;

/// The same accounts, in memory of their own. `Mem` for want of memory alone.
pub fn copies(alloc: Global, accounts: &[Account]) -> Result<Vec<Account>, Mem>
    ensures { IfOk result (λ all. map shown all.items ≡ map shown accounts.now) }
{
    let mut all = Vec::with_capacity(alloc, accounts.len())?;
    for account in accounts {
        all.push(account.copy(alloc)?)?;
    }
    Ok(all)
}

/// The index of the names of the banks of some accounts, which differ. `Mem` for want of memory
/// alone.
pub fn index_of(alloc: Global, accounts: &[Account]) -> Result<IndexSet<Vec<u8>>, Mem>
    requires { HaveOwnNames (net_of accounts.now []) }
    ensures { let banks = map (λ c. c.bank) accounts.now in
        IfOk result (λ index. map (λ n. n.items) index.keys ≡ map (λ b. b.name) banks) }
{
    let mut index = IndexSet::with_capacity(alloc, accounts.len())?;
    for account in accounts {
        let name = Vec::from_slice(alloc, account.bank.name.bytes())?;
        index.insert(name)?;
    }
    Ok(index)
}
