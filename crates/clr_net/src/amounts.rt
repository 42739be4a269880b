ghost use Rattle.std.specs.Prelude.{◌≡◌, IfOk, replicate};
ghost use Rattle.std.specs.Borrow.{sem};
ghost use Rattle.clr_net.specs.AmountsLent.{LendsAmounts};

use crate::Mem;
use std::alloc::Global;
use std::marker::Model;

/// A list of amounts, in units: mostly one for each debt, in file order.
#[derive(Drop)]
pub struct Amounts {
    units: Vec<u64>,
}

impl Model for Amounts {
    ghost use Rattle.std.specs.Prelude.{List, ℕ};

    ghost Value = { List ℕ };

    ghost view = { λ a. a.units.items };
}

impl Amounts {
    /// As many amounts of 0 units as `len`. `Mem` for want of memory alone.
    pub fn zeros(alloc: Global, len: usize) -> Result<Amounts, Mem>
        ensures { IfOk result (λ a. a ≡ replicate len 0) }
    {
        Ok(Amounts {
            units: vec![in alloc; 0; len]?,
        })
    }

    /// The same amounts, in a list of their own. `Mem` for want of memory alone.
    pub fn copy_of(alloc: Global, amounts: &[u64]) -> Result<Amounts, Mem>
        ensures { IfOk result (λ copy. copy ≡ amounts.now) }
    {
        Ok(Amounts {
            units: Vec::from_slice(alloc, amounts)?,
        })
    }

    /// The amounts, in units.
    pub fn as_slice(&self) -> &[u64]
        ensures { result.now ≡ self.now }
    {
        self.units.as_slice()
    }

    /// The amounts, in units, to write.
    pub fn as_mut_slice(&mut self) -> &mut [u64]
        ensures* lends { sem 𝓛 (LendsAmounts self.entry result) }
        ensures now { result.now ≡ self.old }
    {
        self.units.as_mut_slice()
    }
}
