//! Where the words of debts stand on a board.
ghost use Rattle.pay_words.specs.Positions.{ArePositions, first_position, position_of};
ghost use Rattle.pay_words.specs.Tables.{tabled};
ghost use Rattle.std.specs.Prelude.{◌≡◌, ◌<◌, IfOk, length, slice_index};

use clr_net::{BankId, DebtId, Network};
use std::alloc::{AllocError, Global};
use std::marker::Model;

/// The position of each debt's word among the words of debts, and of each bank that of the first
/// debt to it. Debts to one bank stand side by side.
#[derive(Drop)]
pub(crate) struct Positions {
    of_debts: Vec<u32>,
    firsts: Vec<u32>,
}

impl Model for Positions {
    ghost use Rattle.pay_words.specs.Positions.{Positions};

    ghost Value = { Positions };

    ghost view = { λ p. record { of_debts = p.of_debts.items; firsts = p.firsts.items } };
}

impl Positions {
    /// Those on a board of a network. Costs a walk over all banks and debts.
    pub(crate) fn of(alloc: Global, net: &Network) -> Result<Positions, AllocError>
        ensures { IfOk result (ArePositions net.now) }
    {
        let firsts = first_positions(alloc, net)?;
        let of_debts = debt_positions(alloc, net, firsts.as_slice())?;
        Ok(Positions { of_debts, firsts })
    }

    /// The position of a debt's word.
    pub(crate) fn of_debt(&self, debt: DebtId) -> usize
        requires { debt.0 < length self.now.of_debts }
        ensures { result ≡ slice_index self.now.of_debts debt.0 }
    {
        self.of_debts[debt.0 as usize] as usize
    }

    /// The position at which the words of the debts to a bank begin.
    pub(crate) fn first(&self, bank: BankId) -> usize
        requires { bank.0 < length self.now.firsts }
        ensures { result ≡ slice_index self.now.firsts bank.0 }
    {
        self.firsts[bank.0 as usize] as usize
    }
}

// Of each bank the position of the first debt to it: so many debts are owed to earlier banks.
fn first_positions(alloc: Global, net: &Network) -> Result<Vec<u32>, AllocError>
    ensures { IfOk result
        (λ firsts. firsts.items ≡ tabled (length net.now.banks) (first_position net.now)) }
{
    let mut firsts = Vec::with_capacity(alloc, net.banks() as usize)?;
    let mut first = 0;
    for number in 0..net.banks() {
        firsts.push_reserved(first);
        first += net.column(BankId(number)).len() as u32;
    }
    Ok(firsts)
}

// The position of each debt, where those of each bank are known to begin: each takes the next one
// of its creditor.
fn debt_positions(alloc: Global, net: &Network, firsts: &[u32]) -> Result<Vec<u32>, AllocError>
    requires { firsts.now ≡ tabled (length net.now.banks) (first_position net.now) }
    ensures { IfOk result
        (λ of_debts. of_debts.items ≡ tabled (length net.now.debts) (position_of net.now)) }
{
    let mut next: Vec<u32> = Vec::with_capacity(alloc, firsts.len())?;
    next.extend_from_slice(firsts)?;
    let mut of_debts = Vec::with_capacity(alloc, net.debts() as usize)?;
    for number in 0..net.debts() {
        let creditor = net.debt(DebtId(number)).creditor.0 as usize;
        let position = next[creditor];
        of_debts.push_reserved(position);
        next[creditor] = position + 1;
    }
    Ok(of_debts)
}
