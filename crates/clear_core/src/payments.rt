ghost use Rattle.clear_core.specs.Buffers.{AreInLimit};
ghost use Rattle.clear_core.specs.Clearing.{zeros};
ghost use Rattle.clear_core.specs.Sums.{HaveSums};
ghost use Rattle.std.specs.Prelude.{◌≡◌, IfOk, length};

use crate::receipts::{paid_by, receipts_of};
use clr_net::{Amounts, BankId, Mem, Network};
use std::alloc::Global;

/// What a bank receives, and what it pays on its debts, in units.
#[derive(Clone, Copy, Debug)]
pub struct Sums {
    /// What is paid to it.
    pub received: u64,
    /// What it pays on all its debts.
    pub paid: u64,
}

/// Payments on all debts of a network, with what each bank receives and pays by them: sums that
/// grow with the payments, so that none is added up anew.
#[derive(Drop)]
pub struct Payments {
    /// What is paid on each debt, in file order, in units.
    pub paid: Amounts,
    /// What each bank receives and pays, in file order.
    pub sums: Vec<Sums>,
}

impl Payments {
    /// Nothing is paid. `Mem` for want of memory alone.
    pub fn none(alloc: Global, net: &Network) -> Result<Payments, Mem>
        ensures paid { IfOk result (λ none. none.paid ≡ zeros net.now) }
        ensures sums { IfOk result (HaveSums net.now) }
    {
        let nothing = Sums {
            received: 0,
            paid: 0,
        };
        Ok(Payments {
            paid: Amounts::zeros(alloc, net.debts() as usize)?,
            sums: vec![in alloc; nothing; net.banks() as usize]?,
        })
    }

    /// So much is paid on each debt, in file order, in units. `Mem` for want of memory alone. Costs
    /// two walks over the debts.
    pub fn of(alloc: Global, net: &Network, paid: Amounts) -> Result<Payments, Mem>
        requires over { length paid ≡ length net.now.debts }
        requires paid_in_limit { AreInLimit paid }
        ensures paid { IfOk result (λ all. all.paid ≡ paid) }
        ensures sums { IfOk result (HaveSums net.now) }
    {
        let mut sums = Vec::with_capacity(alloc, net.banks() as usize)?;
        for number in 0..net.banks() {
            let bank = BankId(number);
            sums.push(Sums {
                received: receipts_of(net, bank, paid.as_slice()),
                paid: paid_by(net, bank, paid.as_slice()),
            })?;
        }
        Ok(Payments { paid, sums })
    }

    /// The same payments, in memory of their own. `Mem` for want of memory alone.
    pub fn copy(&self, alloc: Global) -> Result<Payments, Mem>
        ensures paid { IfOk result (λ copy. copy.paid ≡ self.now.paid) }
        ensures sums { IfOk result (λ copy. copy.sums.items ≡ self.now.sums.items) }
    {
        Ok(Payments {
            paid: Amounts::copy_of(alloc, self.paid.as_slice())?,
            sums: Vec::from_slice(alloc, self.sums.as_slice())?,
        })
    }
}
