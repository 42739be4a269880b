ghost use Rattle.clr_net.specs.Accounts.{HasRoom};
ghost use Rattle.clr_net.specs.Keys.{key as key_told};
ghost use Rattle.clr_net.specs.declared.TheConstants.{MAX_BANKS};
ghost use Rattle.std.specs.List.{list_any};
ghost use Rattle.std.specs.Prelude.{◌≡◌, ◌<◌, ◌==◌, ◌++◌, [], ◌∷◌};
ghost use Rattle.std.specs.Prelude.{IfOk, OnOk, vec_len};

use crate::Mem;
use crate::debt::{BankId, DebtId};
use std::alloc::Global;

// How many debts a list gets room for at once, when it gets its first.
const FIRST_ROOM: usize = 32;

/// Debts of one bank, as it owes them or is owed them, in file order: their numbers, and beside
/// each its key, which tells the other bank and the class.
///
/// A search reads the keys alone, which lie one after the other, and no debt.
#[derive(Drop)]
pub struct DebtList {
    pub ids: Vec<DebtId>,
    pub keys: Vec<u32>,
}

impl DebtList {
    /// No debt. Takes no memory.
    pub fn new(alloc: Global) -> DebtList
        ensures ids { result.ids.items ≡ [] }
        ensures keys { result.keys.items ≡ [] }
    {
        DebtList {
            ids: Vec::new(alloc),
            keys: Vec::new(alloc),
        }
    }

    /// The same debts, in memory of their own. `Mem` for want of memory alone.
    pub fn copy(&self, alloc: Global) -> Result<DebtList, Mem>
        ensures ids { IfOk result (λ l. l.ids.items ≡ self.now.ids.items) }
        ensures keys { IfOk result (λ l. l.keys.items ≡ self.now.keys.items) }
    {
        Ok(DebtList {
            ids: Vec::from_slice(alloc, self.ids.as_slice())?,
            keys: Vec::from_slice(alloc, self.keys.as_slice())?,
        })
    }

    /// Room for one more debt: for many at once where there is none, since most lists get more.
    pub fn reserve_one(&mut self) -> Result<(), Mem>
        ensures ids { self.new.ids.items ≡ self.old.ids.items }
        ensures keys { self.new.keys.items ≡ self.old.keys.items }
        ensures ok { OnOk result (HasRoom self.new) }
    {
        let more = if self.ids.is_empty() { FIRST_ROOM } else { 1 };
        self.ids.reserve(more)?;
        self.keys.reserve(more)?;
        Ok(())
    }

    /// Adds a debt at the end, for which there is room.
    pub fn add(&mut self, id: DebtId, key: u32)
        requires { HasRoom self.old }
        ensures ids { self.new.ids.items ≡ self.old.ids.items ++ id ∷ [] }
        ensures keys { self.new.keys.items ≡ self.old.keys.items ++ key ∷ [] }
    {
        self.ids.push_reserved(id);
        self.keys.push_reserved(key);
    }

    /// How many debts there are.
    pub fn len(&self) -> usize
        ensures { result ≡ vec_len self.now.ids }
    {
        self.ids.len()
    }

    /// Whether one of the debts has this key.
    pub fn has_key(&self, key: u32) -> bool
        ensures { result ≡ list_any (λ k. k == key) self.now.keys.items }
    {
        self.keys.contains(&key)
    }
}

/// The key of a debt in a list of one of its banks: the other bank and the class.
pub fn key_of(bank: BankId, class: u8) -> u32
    requires { bank.0 < MAX_BANKS }
    ensures { result ≡ key_told bank.0 class }
{
    bank.0 * 256 + u32::from(class)
}
