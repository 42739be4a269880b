ghost use Rattle.clear_core.specs.Buffers.{HasRoom};
ghost use Rattle.clear_least.specs.Paying.{NeverFalls};
ghost use Rattle.clr_net.specs.Claims.{all_claims};
ghost use Rattle.clr_net.specs.Limits.{IsNetwork};
ghost use Rattle.std.specs.Prelude.{◌≡◌, IfOk, OnOk, length, replicate};
ghost use Rattle.upper.specs.Bounds.{EquitiesAreFixed, IsGreatest, WavesTellHealth};
ghost use Rattle.upper.specs.Bounds.{greatest, waves as waves_of};
ghost use Rattle.upper.specs.Greatest.{IsGreatestBy, falling_by, greatest_by as greatest_payments};
ghost use Rattle.upper.specs.Waves.{waves_in};

use crate::bounds::Upper;
use crate::falls::Falls;
use crate::round::{pay_round, take_over};
use crate::short::mark_short;
use clear_core::Scratch;
use clear_least::{Spending, WithoutCosts};
use clr_net::{Amounts, DebtId, Mem, Network};
use std::alloc::Global;
use std::mem;

/// The greatest payments that clear the network, one for each debt, in units, and the wave of each
/// bank, both in file order (Eisenberg and Noe 2001; waves are this project's own).
///
/// A bank's wave is 1 exactly where its own fundamentals are at fault, and 0 exactly where it is
/// sound under the greatest payments. Whichever payments clear, the equities are the same.
///
/// `Mem` is want of memory alone. Takes memory at the start: two lists over the debts, five over
/// the banks and the buffers of one division. Costs a division of each bank, and then one for each
/// bank and round in which its receipts fell in the round before.
pub fn upper(alloc: Global, net: &Network) -> Result<Upper, Mem>
    ensures greatest { IfOk result (λ found. found.greatest ≡ greatest net.now) }
    ensures is_greatest { IfOk result (λ found. IsGreatest net.now found.greatest) }
    ensures waves { IfOk result (λ found. found.waves ≡ waves_of net.now) }
    ensures healths { IfOk result (λ found. WavesTellHealth net.now found.waves) }
    ensures equities { OnOk result (EquitiesAreFixed net.now) }
{
    descend_by(alloc, net, &WithoutCosts)
}

/// The greatest payments that clear where each bank divides what `spending` says, one for each
/// debt, in file order, in units. No bank may divide less as its receipts grow.
///
/// `Mem` is want of memory alone. Takes memory, and costs, as [`upper`] does.
pub fn greatest_by<S: Spending>(alloc: Global, net: &Network, spending: &S) -> Result<Amounts, Mem>
    requires never_falls { NeverFalls (S.spends spending.now net.now) }
    ensures payments { IfOk result (λ paid. paid
        ≡ greatest_payments net.now (S.spends spending.now net.now)) }
    ensures greatest { IfOk result (IsGreatestBy net.now (S.spends spending.now net.now)) }
{
    Ok(descend_by(alloc, net, spending)?.greatest)
}

// The greatest payments, and the waves of the rounds that come to them.
fn descend_by<S: Spending>(alloc: Global, net: &Network, spending: &S) -> Result<Upper, Mem>
    requires never_falls { NeverFalls (S.spends spending.now net.now) }
    ensures network { OnOk result (IsNetwork net.now) }
    ensures greatest { IfOk result (λ found. found.greatest
        ≡ greatest_payments net.now (S.spends spending.now net.now)) }
    ensures waves { IfOk result (λ found. found.waves
        ≡ waves_in net.now (falling_by net.now (S.spends spending.now net.now))) }
{
    let mut greatest = Amounts::zeros(alloc, net.debts() as usize)?;
    let mut waves = Amounts::zeros(alloc, net.banks() as usize)?;
    descend_in_room(
        alloc,
        net,
        spending,
        greatest.as_mut_slice(),
        waves.as_mut_slice(),
    )?;
    Ok(Upper { greatest, waves })
}

// Takes the room that the rounds need beside the two lists that are written, and makes them. With
// that room behind references the next step has little to drop.
fn descend_in_room<S: Spending>(
    alloc: Global,
    net: &Network,
    spending: &S,
    paid: &mut [u64],
    waves: &mut [u64],
) -> Result<(), Mem>
    requires never_falls { NeverFalls (S.spends spending.now net.now) }
    requires paid { length paid.old ≡ length net.now.debts }
    requires waves { waves.old ≡ replicate (length net.now.banks) 0 }
    ensures paid { OnOk result (paid.new
        ≡ greatest_payments net.now (S.spends spending.now net.now)) }
    ensures waves { OnOk result (waves.new
        ≡ waves_in net.now (falling_by net.now (S.spends spending.now net.now))) }
{
    let mut next = Amounts::zeros(alloc, net.debts() as usize)?;
    let mut room = Room {
        scratch: Scratch::of(alloc, net)?,
        // In the first round every bank divides.
        last: Falls::of_all(alloc, net)?,
        falls: Falls::none(alloc, net)?,
    };
    descend(net, spending, paid, waves, next.as_mut_slice(), &mut room);
    Ok(())
}

// What the rounds need beside lists of payments.
#[derive(Drop)]
struct Room {
    scratch: Scratch,
    // By how much receipts fell in the last round, and in this one.
    last: Falls,
    falls: Falls,
}

// Makes rounds from all debts paid in full, up to the first that changes nothing.
fn descend<S: Spending>(
    net: &Network,
    spending: &S,
    paid: &mut [u64],
    waves: &mut [u64],
    next: &mut [u64],
    room: &mut Room,
)
    requires network { IsNetwork net.now }
    requires never_falls { NeverFalls (S.spends spending.now net.now) }
    requires paid { length paid.old ≡ length net.now.debts }
    requires waves { waves.old ≡ replicate (length net.now.banks) 0 }
    requires next { length next.old ≡ length net.now.debts }
    requires scratch { HasRoom net.now room.old.scratch }
    requires last { room.old.last ≡ replicate (length net.now.banks) 1 }
    requires falls { room.old.falls ≡ replicate (length net.now.banks) 0 }
    ensures paid { paid.new ≡ greatest_payments net.now (S.spends spending.now net.now) }
    ensures waves { waves.new
        ≡ waves_in net.now (falling_by net.now (S.spends spending.now net.now)) }
{
    pay_all(net, paid);
    next.copy_from_slice(paid);
    let mut round = 0;
    loop {
        round += 1;
        mark_short(net, &room.last, paid, round, waves);
        pay_round(net, spending, &room.last, paid, next, &mut room.scratch);
        take_over(net, &room.last, next, paid, &mut room.falls);
        if room.falls.banks().is_empty() {
            return;
        }
        mem::swap(&mut room.last, &mut room.falls);
        room.falls.clear();
    }
}

// Pays every debt in full.
fn pay_all(net: &Network, paid: &mut [u64])
    requires { length paid.old ≡ length net.now.debts }
    ensures { paid.new ≡ all_claims net.now }
{
    for number in 0..net.debts() {
        paid[number as usize] = net.debt(DebtId(number)).claim;
    }
}
