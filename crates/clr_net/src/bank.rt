ghost use Rattle.std.specs.Prelude.{◌≡◌, IfOk};

use crate::Mem;
use crate::name::Name;
use crate::rule::RuleKind;
use std::alloc::Global;

/// A bank: its name, its cash in units, the rule by which it divides what it has, and what it owes
/// outside the network, in units, which ranks before all its debts.
#[derive(Drop)]
pub struct Bank {
    pub name: Name,
    pub cash: u64,
    pub rule: RuleKind,
    pub outside: u64,
}

impl Bank {
    /// The same bank, with a name of its own. `Mem` for want of memory alone.
    pub fn copy(&self, alloc: Global) -> Result<Bank, Mem>
        ensures { IfOk result (λ bank. bank ≡ self.now) }
    {
        Ok(Bank {
            name: self.name.copy(alloc)?,
            cash: self.cash,
            rule: self.rule,
            outside: self.outside,
        })
    }
}
