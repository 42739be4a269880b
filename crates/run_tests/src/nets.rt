//! The networks on which runs are tried, beside those of `net_samples`.
ghost use Rattle.std.specs.Prelude.{◌<◌, ◌≤◌};

use clr_net::{Mem, Network};
use net_samples::{add_bank, add_debt, chain, ring, woven};
use std::alloc::Global;

// The networks on which runs are tried.
#[derive(Clone, Copy)]
pub(crate) enum Sample {
    NoBank,
    Chain,
    Ring,
    // So many banks, which owe round a circle.
    Woven(u32),
    // A ring of two banks whose debts are of so many units.
    LongRing(u64),
    // A ring of 300 banks, each of which owes the next a unit.
    WideRing,
    // 700 banks of nothing, but that the bank 6 owes the bank 2 a unit and the bank 7 owes the bank 3
    // one, and both have this. Each of both pairs is of one worker, where there are one, two or four.
    TwoPairs,
    // The same of so many banks, none of which has a unit.
    TwoPoorPairs(u32),
    // So many banks of a unit each, of which each from this number on owes the bank as many before
    // it. In each sweep over the banks all that a bank has goes down a step.
    Stairs(u32, u32),
    // Five banks, of which the third owes the first a unit, and the fourth one to the second and one
    // to the fifth.
    Five,
    // A chain of three, with banks of nothing before and after: its first is the bank that worker 0
    // of two visits in this turn, its second that which worker 1 does, and its third comes after both.
    Late(u32),
}

// How many banks and debts a sample has that is made here.
fn size_of(sample: Sample) -> [u32; 2] {
    match sample {
        Sample::LongRing(_) => [2, 2],
        Sample::WideRing => [300, 300],
        Sample::TwoPairs => [700, 2],
        Sample::TwoPoorPairs(banks) => [banks, 2],
        Sample::Stairs(banks, step) => [banks, banks.saturating_sub(step)],
        Sample::Five => [5, 3],
        Sample::Late(turn) => [turn.saturating_mul(2).saturating_add(2), 2],
        _ => [0, 0],
    }
}

// The cash of a bank of it.
fn cash_of(sample: Sample, bank: u32) -> u64 {
    match sample {
        Sample::LongRing(_) | Sample::WideRing => u64::from(bank == 0),
        Sample::TwoPairs => u64::from(bank == 6 || bank == 7),
        Sample::Stairs(_, _) => 1,
        Sample::Five => [0, 0, 1, 2, 0][bank as usize % 5],
        Sample::Late(turn) => late_cash(turn, bank),
        _ => 0,
    }
}

fn late_cash(turn: u32, bank: u32) -> u64 {
    if bank.saturating_add(2) == turn.saturating_mul(2) {
        7
    } else {
        u64::from(bank.saturating_add(1) == turn.saturating_mul(2))
    }
}

// A debt of it: the debtor, the creditor and the claim.
fn debt_of(sample: Sample, debt: u32) -> (u32, u32, u64)
    requires { debt < 1000 }
{
    match sample {
        Sample::LongRing(units) => (debt, u32::from(debt == 0), units),
        Sample::WideRing => (debt, (debt + 1) % 300, 1),
        Sample::Stairs(_, step) => (debt.saturating_add(step), debt, 20),
        Sample::Five => [(2, 0, 1), (3, 1, 1), (3, 4, 1)][debt as usize % 3],
        Sample::Late(turn) => late_debt(turn.saturating_mul(2), debt),
        _ => (debt + 6, debt + 2, 1),
    }
}

fn late_debt(third: u32, debt: u32) -> (u32, u32, u64) {
    let second = third.saturating_sub(1);
    if debt == 0 {
        (third.saturating_sub(2), second, 10)
    } else {
        (second, third.saturating_add(1), 9)
    }
}

// Adds the banks of a sample, named by their numbers.
fn add_banks(alloc: Global, net: &mut Network, sample: Sample, banks: u32) -> Result<(), Mem>
    requires { banks ≤ 10000 }
{
    for number in 0..banks {
        let name = [
            b'A' + (number / 1024) as u8,
            b'A' + (number / 32 % 32) as u8,
            b'A' + (number % 32) as u8,
        ];
        add_bank(alloc, net, &name, cash_of(sample, number))?;
    }
    Ok(())
}

fn add_debts(net: &mut Network, sample: Sample, debts: u32) -> Result<(), Mem>
    requires { debts ≤ 1000 }
{
    for number in 0..debts {
        let (debtor, creditor, claim) = debt_of(sample, number);
        add_debt(net, debtor, creditor, claim)?;
    }
    Ok(())
}

fn add_all(alloc: Global, net: &mut Network, sample: Sample) -> Result<(), Mem> {
    let [banks, debts] = size_of(sample);
    add_banks(alloc, net, sample, banks.min(10_000))?;
    add_debts(net, sample, debts.min(1000))
}

fn made_here(alloc: Global, sample: Sample) -> Result<Network, Mem> {
    let mut net = Network::empty(alloc);
    add_all(alloc, &mut net, sample)?;
    Ok(net)
}

// The network of a sample.
pub(crate) fn net_of(alloc: Global, sample: Sample) -> Result<Network, Mem> {
    match sample {
        Sample::Chain => chain(alloc),
        Sample::Ring => ring(alloc),
        Sample::Woven(banks) => woven(alloc, banks),
        _ => made_here(alloc, sample),
    }
}
