ghost use Rattle.std.specs.Prelude.{◌≡◌, ◌+◌, ◌^◌, ◌<◌, IfOk, length, replicate, slice_index, slice_set};
ghost use Rattle.upper.specs.Falls.{AreHit};

use clr_net::{BankId, Mem, Network};
use std::alloc::Global;
use std::marker::Model;

// By how many units the receipts of each bank fell in a round, and which banks were hit by that, so
// that they can be gone over without a walk over all.
//
// Contracts see the units, one number for each bank, in file order.
#[derive(Drop)]
pub(crate) struct Falls {
    units: Vec<u64>,
    banks: Vec<BankId>,
}

impl Model for Falls {
    ghost use Rattle.std.specs.Prelude.{List, ℕ, vec_capacity};
    ghost use Rattle.upper.specs.Falls.{AreKept};

    ghost Value = { List ℕ };

    ghost view = { λ f. f.units.items };

    ghost invariant = { λ f. AreKept f.units.items f.banks.items (vec_capacity f.banks) };
}

impl Falls {
    // No bank's receipts fell.
    pub(crate) fn none(alloc: Global, net: &Network) -> Result<Falls, Mem>
        ensures { IfOk result (λ f. f ≡ replicate (length net.now.banks) 0) }
    {
        let banks = net.banks() as usize;
        Ok(Falls {
            units: vec![in alloc; 0; banks]?,
            banks: Vec::with_capacity(alloc, banks)?,
        })
    }

    // Each bank's receipts fell by a unit.
    pub(crate) fn of_all(alloc: Global, net: &Network) -> Result<Falls, Mem>
        ensures { IfOk result (λ f. f ≡ replicate (length net.now.banks) 1) }
    {
        let mut falls = Falls::none(alloc, net)?;
        for number in 0..net.banks() {
            falls.add(BankId(number), 1);
        }
        Ok(falls)
    }

    // The banks whose receipts fell.
    pub(crate) fn banks(&self) -> &[BankId]
        ensures { AreHit self.now result.now }
    {
        self.banks.as_slice()
    }

    // A bank's receipts fell by so many units more.
    pub(crate) fn add(&mut self, bank: BankId, units: u64)
        requires bank { bank.0 < length self.old }
        requires fits { slice_index self.old bank.0 + units < 2 ^ 64 }
        ensures { self.new ≡ slice_set self.old bank.0 (slice_index self.old bank.0 + units) }
    {
        let place = bank.0 as usize;
        let so_far = self.units[place];
        if so_far == 0 && units > 0 {
            self.banks.push_reserved(bank);
        }
        self.units[place] = so_far + units;
    }

    // None fell any more.
    pub(crate) fn clear(&mut self)
        ensures { self.new ≡ replicate (length self.old) 0 }
    {
        wipe(self.units.as_mut_slice(), self.banks.as_slice());
        self.banks.clear();
    }
}

// Writes 0 at each bank that was hit.
fn wipe(units: &mut [u64], banks: &[BankId])
    requires { AreHit units.old banks.now }
    ensures { units.new ≡ replicate (length units.old) 0 }
{
    for bank in banks {
        units[bank.0 as usize] = 0;
    }
}
