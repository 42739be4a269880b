ghost use Rattle.std.specs.Prelude.{◌≡◌, [], ◌∷◌, ◌++◌, OnOk, OnErr};
ghost use Rattle.std.specs.List.{list_any};
ghost use Rattle.stress.specs.Shocks.{is_of_bank};

use clr_net::{BankId, Mem, Name};
use std::alloc::Global;
use std::marker::Model;

/// What a bank loses, in units.
#[derive(Clone, Copy, Debug, PartialEq, Eq)]
pub struct Loss {
    pub bank: BankId,
    pub amount: u64,
}

/// The losses of a scenario, in file order. Contracts see them as a list.
#[derive(Drop)]
pub struct Losses {
    listed: Vec<Loss>,
}

impl Model for Losses {
    ghost use Rattle.std.specs.Prelude.{List};
    ghost use Rattle.stress.specs.declared.scenario.Loss.{Loss};

    ghost Value = { List Loss };

    ghost view = { λ losses. losses.listed.items };
}

/// A scenario: a cut of all cash, per mille, and losses of single banks.
#[derive(Drop)]
pub struct Scenario {
    pub name: Name,
    pub cut: u32,
    pub losses: Losses,
}

impl Losses {
    /// No loss. Takes no memory.
    pub fn empty(alloc: Global) -> Losses
        ensures { result ≡ [] }
    {
        Losses {
            listed: Vec::new(alloc),
        }
    }

    /// Adds a loss at the end. `Mem` for want of memory alone; the list is then as it was.
    pub fn push(&mut self, loss: Loss) -> Result<(), Mem>
        ensures ok { OnOk result (self.new ≡ self.old ++ loss ∷ []) }
        ensures err { OnErr result (self.new ≡ self.old) }
    {
        self.listed.push(loss)?;
        Ok(())
    }

    /// The losses.
    pub fn as_slice(&self) -> &[Loss]
        ensures { result.now ≡ self.now }
    {
        self.listed.as_slice()
    }

    /// Whether one of them is of this bank.
    pub(crate) fn has_bank(&self, bank: BankId) -> bool
        ensures { result ≡ list_any (is_of_bank bank.0) self.now }
    {
        for loss in self.as_slice() {
            if loss.bank == bank {
                return true;
            }
        }
        false
    }
}
