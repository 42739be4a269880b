//! What a board begins with.
ghost use Rattle.clr_net.specs.Net.{debt_numbers, debtor_of};
ghost use Rattle.pay_words.specs.Making.{AreOpening};
ghost use Rattle.pay_words.specs.Positions.{ArePositions};
ghost use Rattle.pay_words.specs.Seating.{greatest};
ghost use Rattle.pay_words.specs.Words.{word_of};
ghost use Rattle.std.specs.Prelude.{◌≡◌, ◌^◌, ◌<◌, [], All, IfOk, length, map};

use crate::payment::Payment;
use crate::positions::Positions;
use clear_core::Raise;
use clr_net::{DebtId, Network};
use std::alloc::{AllocError, Global};

/// The words of a new board: the roll word, at 1, those of the payments, by the positions of their
/// debts, and the bells, which are all up.
pub(crate) fn opening_words(
    alloc: Global,
    net: &Network,
    start: &[Payment],
    positions: &Positions,
) -> Result<Vec<u64>, AllocError>
    requires start { length start.now ≡ length net.now.debts }
    requires positions { ArePositions net.now positions.now }
    requires fit { All (λ p. word_of p < 2 ^ 64) start.now }
    ensures { IfOk result (λ words. AreOpening net.now start.now words.items) }
{
    let size = 1 + net.debts() as usize + net.banks() as usize;
    let mut words = Vec::with_capacity(alloc, size)?;
    words.resize(size, 1)?;
    for number in 0..net.debts() {
        let position = positions.of_debt(DebtId(number));
        words[position + 1] = start[number as usize].word();
    }
    Ok(words)
}

/// The clock of a new board: the greatest stamp of the payments that its past leaves, or 0. Where
/// nothing was raised before, it costs no walk.
pub(crate) fn opening_clock(start: &[Payment], past: &[Raise]) -> u64
    requires { past.now ≡ [] → greatest (map (λ p. p.stamp) start.now) ≡ 0 }
    ensures { result ≡ greatest (map (λ p. p.stamp) start.now) }
{
    if past.is_empty() {
        return 0;
    }
    greatest_stamp(start)
}

// The greatest of the stamps, or 0.
fn greatest_stamp(start: &[Payment]) -> u64
    ensures { result ≡ greatest (map (λ p. p.stamp) start.now) }
{
    let mut stamp = 0;
    for payment in start {
        stamp = payment.stamp.max(stamp);
    }
    stamp
}

/// The number of the debtor of each debt.
pub(crate) fn debtors_of(alloc: Global, net: &Network) -> Result<Vec<u32>, AllocError>
    ensures { IfOk result
        (λ debtors. debtors.items ≡ map (debtor_of net.now) (debt_numbers net.now)) }
{
    let mut debtors = Vec::with_capacity(alloc, net.debts() as usize)?;
    for number in 0..net.debts() {
        debtors.push_reserved(net.debt(DebtId(number)).debtor.0);
    }
    Ok(debtors)
}
