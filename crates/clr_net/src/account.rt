ghost use Rattle.clr_net.specs.declared.account.Account.{Account};
ghost use Rattle.clr_net.specs.declared.TheConstants.{MAX_BANKS};
ghost use Rattle.clr_net.specs.Accounts.{shown, owing, owed_one_more, entered, HasRoom, HaveRoom};
ghost use Rattle.std.specs.Prelude.{◌≡◌, ◌≢◌, ◌+◌, ◌<◌, ◌≤◌, ◌^◌, map, slice_get};
ghost use Rattle.std.specs.Prelude.{vec_len, IfOk, OnOk, Some};

use crate::Mem;
use crate::bank::Bank;
use crate::debt::{BankId, Debt, DebtId};
use crate::debt_list::{DebtList, key_of};
use std::alloc::Global;

/// A bank with the debts that it owes, those that are owed to it, and how many units it owes.
#[derive(Drop)]
pub struct Account {
    pub bank: Bank,
    pub row: DebtList,
    pub column: DebtList,
    pub owed: u64,
}

impl Account {
    /// The same account, in memory of its own. `Mem` for want of memory alone.
    pub fn copy(&self, alloc: Global) -> Result<Account, Mem>
        ensures { IfOk result (λ c. shown c ≡ shown self.now) }
    {
        Ok(Account {
            bank: self.bank.copy(alloc)?,
            row: self.row.copy(alloc)?,
            column: self.column.copy(alloc)?,
            owed: self.owed,
        })
    }

    // Room for one more debt that the bank owes.
    fn reserve_row(&mut self) -> Result<(), Mem>
        ensures shown { shown self.new ≡ shown self.old }
        ensures ok { OnOk result (HasRoom self.new.row) }
    {
        self.row.reserve_one()
    }

    // Room for one more debt that is owed to the bank.
    fn reserve_column(&mut self) -> Result<(), Mem>
        ensures shown { shown self.new ≡ shown self.old }
        ensures ok { OnOk result (HasRoom self.new.column) }
    {
        self.column.reserve_one()
    }

    fn owe(&mut self, id: DebtId, debt: Debt)
        requires room { HasRoom self.old.row }
        requires bank { debt.creditor.0 < MAX_BANKS }
        requires fits { self.old.owed + debt.claim < 2 ^ 64 }
        ensures { shown self.new ≡ owing id.0 debt (shown self.old) }
    {
        self.row.add(id, key_of(debt.creditor, debt.class));
        self.owed += debt.claim;
    }

    fn be_owed(&mut self, id: DebtId, debt: Debt)
        requires room { HasRoom self.old.column }
        requires bank { debt.debtor.0 < MAX_BANKS }
        ensures { shown self.new ≡ owed_one_more id.0 debt (shown self.old) }
    {
        self.column.add(id, key_of(debt.debtor, debt.class));
    }
}

/// Room in the accounts of a debtor and a creditor for one more debt. `Mem` for want of memory
/// alone.
pub fn make_room(accounts: &mut Vec<Account>, debtor: BankId, creditor: BankId) -> Result<(), Mem>
    requires debtor { debtor.0 < vec_len accounts.old }
    requires creditor { creditor.0 < vec_len accounts.old }
    requires two { debtor.0 ≢ creditor.0 }
    ensures shown { map shown accounts.new.items ≡ map shown accounts.old.items }
    ensures ok { OnOk result (HaveRoom accounts.new.items debtor.0 creditor.0) }
{
    accounts[debtor.0 as usize].reserve_row()?;
    accounts[creditor.0 as usize].reserve_column()
}

/// Enters a debt into the accounts of its debtor and its creditor, which have room for it.
pub fn enter(accounts: &mut Vec<Account>, id: DebtId, debt: Debt)
    requires banks_in_limit { vec_len accounts.old ≤ MAX_BANKS }
    requires debtor { debt.debtor.0 < vec_len accounts.old }
    requires creditor { debt.creditor.0 < vec_len accounts.old }
    requires two { debt.debtor.0 ≢ debt.creditor.0 }
    requires room { HaveRoom accounts.old.items debt.debtor.0 debt.creditor.0 }
    requires fits { (c : Account) → slice_get accounts.old.items debt.debtor.0 ≡ Some c
        → c.owed + debt.claim < 2 ^ 64 }
    ensures { map shown accounts.new.items ≡ entered (map shown accounts.old.items) id.0 debt }
{
    accounts[debt.debtor.0 as usize].owe(id, debt);
    accounts[debt.creditor.0 as usize].be_owed(id, debt);
}
