ghost use Rattle.clr_net.specs.Name.{is_name};
ghost use Rattle.clr_net.specs.Limits.{IsNetwork, IsNewDebt, IsNewName, IsNewKind, IsOfKind};
ghost use Rattle.clr_net.specs.Net.{empty_net, with_bank, with_cash, with_debt, name_of, numbers, row as row_of, column as column_of, claims_of};
ghost use Rattle.clr_net.specs.Net.{units_owed, all_cash, all_outside, has_name, is_debt_of};
ghost use Rattle.clr_net.specs.declared.TheConstants.{MAX_BANKS, MAX_CASH, MAX_OUTSIDE};
ghost use Rattle.std.specs.List.{list_any};
ghost use Rattle.std.specs.Bool.{OnFalse};
ghost use Rattle.std.specs.Option.{option_map};
ghost use Rattle.std.specs.Prelude.{◌≡◌, ◌<◌, ◌≤◌, ◌↔◌, Some, length, position, slice_get, sum, IfOk, IfErr, OnOk, OnErr, IfSome, IsNone, IsTrue};

use crate::Mem;
use crate::account::{Account, enter, make_room};
use crate::bank::Bank;
use crate::copying::{copies, index_of};
use crate::debt::{BankId, Debt, DebtId};
use crate::debt_list::{DebtList, key_of};
use indexmap::IndexSet;
use std::alloc::Global;
use std::marker::Model;

/// Banks and their debts, each known by its number in file order, with rows, columns and an index
/// by name.
///
/// Contracts see the two lists. What is in a network always meets its limits and rules
/// (`IsNetwork`).
#[derive(Drop)]
pub struct Network {
    accounts: Vec<Account>,
    debts: Vec<Debt>,
    names: IndexSet<Vec<u8>>,
    owed: u64,
    cash: u64,
    outside: u64,
}

impl Model for Network {
    ghost use Rattle.clr_net.specs.Net.{Net};

    ghost Value = { Net };

    ghost use Rattle.clr_net.specs.Kept.{net_within, IsKept};

    ghost view = { net_within };

    ghost invariant = { IsKept };
}

impl Network {
    /// No bank and no debt. Takes no memory.
    pub fn empty(alloc: Global) -> Network
        ensures { result ≡ empty_net }
    {
        Network {
            accounts: Vec::new(alloc),
            debts: Vec::new(alloc),
            names: IndexSet::new(alloc),
            owed: 0,
            cash: 0,
            outside: 0,
        }
    }

    /// Adds a bank at the end. `Err` is want of memory alone: it hands the bank back, and the
    /// network stays as it was.
    pub fn add_bank(&mut self, bank: Bank) -> Result<BankId, Bank>
        requires room { length self.old.banks < MAX_BANKS }
        requires cash { bank.cash ≤ MAX_CASH }
        requires outside { bank.outside ≤ MAX_OUTSIDE }
        requires new_name { IsNewName self.old bank.name }
        ensures number { IfOk result (λ id. id.0 ≡ length self.old.banks) }
        ensures ok { OnOk result (self.new ≡ with_bank self.old bank) }
        ensures handed_back { IfErr result (λ b. b ≡ bank) }
        ensures err { OnErr result (self.new ≡ self.old) }
    {
        let alloc = *self.debts.allocator();
        let Ok(name) = Vec::from_slice(alloc, bank.name.bytes()) else {
            return Err(bank);
        };
        if self.accounts.reserve(1).is_err() {
            return Err(bank);
        }
        let Ok(_) = self.names.insert(name) else {
            return Err(bank);
        };
        let id = BankId(self.accounts.len() as u32);
        self.cash += bank.cash;
        self.outside += bank.outside;
        self.accounts.push_reserved(Account {
            bank,
            row: DebtList::new(alloc),
            column: DebtList::new(alloc),
            owed: 0,
        });
        Ok(id)
    }

    /// Adds a debt at the end. `Mem` for want of memory alone; the network then stays as it was.
    pub fn add_debt(&mut self, debt: Debt) -> Result<DebtId, Mem>
        requires { IsNewDebt self.old debt }
        ensures number { IfOk result (λ id. id.0 ≡ length self.old.debts) }
        ensures ok { OnOk result (self.new ≡ with_debt self.old debt) }
        ensures err { OnErr result (self.new ≡ self.old) }
    {
        make_room(&mut self.accounts, debt.debtor, debt.creditor)?;
        let id = DebtId(self.debts.len() as u32);
        self.debts.push(debt)?;
        enter(&mut self.accounts, id, debt);
        self.owed += debt.claim;
        Ok(id)
    }

    /// Changes the cash of a bank, in units, and nothing else.
    pub fn set_cash(&mut self, bank: BankId, cash: u64)
        requires bank { bank.0 < length self.old.banks }
        requires cash { cash ≤ MAX_CASH }
        ensures { self.new ≡ with_cash self.old bank.0 cash }
    {
        let old_cash = self.accounts[bank.0 as usize].bank.cash;
        self.cash = self.cash - old_cash + cash;
        self.accounts[bank.0 as usize].bank.cash = cash;
    }

    /// The same banks and debts in a network of its own, with rows, columns and index. `Mem` for
    /// want of memory alone.
    pub fn copy(&self, alloc: Global) -> Result<Network, Mem>
        ensures { IfOk result (λ net. net ≡ self.now) }
    {
        Ok(Network {
            accounts: copies(alloc, self.accounts.as_slice())?,
            debts: Vec::from_slice(alloc, self.debts.as_slice())?,
            names: index_of(alloc, self.accounts.as_slice())?,
            owed: self.owed,
            cash: self.cash,
            outside: self.outside,
        })
    }

    /// How many banks there are.
    pub fn banks(&self) -> u32
        ensures banks { result ≡ length self.now.banks }
        ensures network { IsNetwork self.now }
    {
        self.accounts.len() as u32
    }

    /// How many debts there are.
    pub fn debts(&self) -> u32
        ensures debts { result ≡ length self.now.debts }
        ensures network { IsNetwork self.now }
    {
        self.debts.len() as u32
    }

    /// The bank of this number.
    pub fn bank(&self, id: BankId) -> &Bank
        requires { id.0 < length self.now.banks }
        ensures { slice_get self.now.banks id.0 ≡ Some result.now }
    {
        &self.accounts[id.0 as usize].bank
    }

    /// The debt of this number.
    pub fn debt(&self, id: DebtId) -> Debt
        requires { id.0 < length self.now.debts }
        ensures { slice_get self.now.debts id.0 ≡ Some result }
    {
        self.debts[id.0 as usize]
    }

    /// The debts that a bank owes, in file order.
    pub fn row(&self, bank: BankId) -> &[DebtId]
        requires { bank.0 < length self.now.banks }
        ensures { numbers result.now ≡ row_of self.now bank.0 }
    {
        self.accounts[bank.0 as usize].row.ids.as_slice()
    }

    /// The debts that are owed to a bank, in file order.
    pub fn column(&self, bank: BankId) -> &[DebtId]
        requires { bank.0 < length self.now.banks }
        ensures { numbers result.now ≡ column_of self.now bank.0 }
    {
        self.accounts[bank.0 as usize].column.ids.as_slice()
    }

    /// All units owed.
    pub fn owed(&self) -> u64
        ensures { result ≡ units_owed self.now }
    {
        self.owed
    }

    /// The units that a bank owes.
    pub fn owed_by(&self, bank: BankId) -> u64
        requires { bank.0 < length self.now.banks }
        ensures { result ≡ sum (claims_of self.now bank.0) }
    {
        self.accounts[bank.0 as usize].owed
    }

    /// The cash of all banks, in units.
    pub fn cash_total(&self) -> u64
        ensures { result ≡ all_cash self.now }
    {
        self.cash
    }

    /// What all banks owe outside the network, in units.
    pub fn outside_total(&self) -> u64
        ensures { result ≡ all_outside self.now }
    {
        self.outside
    }

    /// The bank that has this name, byte for byte, found by the index of names; `None` exactly
    /// where no bank has it.
    pub fn bank_named(&self, name: &[u8]) -> Option<BankId>
        ensures place { option_map (λ id. id.0) result
            ≡ position (has_name name.now) self.now.banks }
        ensures none { IsNone result ↔ IsNewName self.now name.now }
        ensures found { IfSome result (λ id.
            (id.0 < length self.now.banks) × (name_of self.now id.0 ≡ name.now)) }
    {
        match self.names.get_index_of(name) {
            Some(i) => Some(BankId(i as u32)),
            None => None,
        }
    }

    /// Whether there is a debt of this debtor, creditor and class. Costs a walk of the debtor's row
    /// or of the creditor's column, whichever is shorter, which reads one number of four bytes a
    /// debt, one after the other.
    pub fn has_debt(&self, debtor: BankId, creditor: BankId, class: u8) -> bool
        requires debtor { debtor.0 < length self.now.banks }
        requires creditor { creditor.0 < length self.now.banks }
        ensures any { result ≡ list_any (is_debt_of debtor.0 creditor.0 class) self.now.debts }
        ensures none { OnFalse result (IsNewKind self.now debtor.0 creditor.0 class) }
    {
        let row = &self.accounts[debtor.0 as usize].row;
        let column = &self.accounts[creditor.0 as usize].column;
        if row.len() <= column.len() {
            row.has_key(key_of(creditor, class))
        } else {
            column.has_key(key_of(debtor, class))
        }
    }
}
