//! What a run begins with.
ghost use Rattle.clr_net.specs.Net.{Net};
ghost use Rattle.pay_words.specs.Traces.{start_of};
ghost use Rattle.pay_words.specs.Words.{unpaid as unpaid_word};
ghost use Rattle.settle.specs.Offices.{AreAllOffices};
ghost use Rattle.settle.specs.Openings.{IsOpened};
ghost use Rattle.settle.specs.Runs.{CanGoOn};
ghost use Rattle.std.specs.Prelude.{◌≡◌, ◌<◌, ◌≤◌, All, IfOk, length, replicate};
ghost use Rattle.std.specs.Thread.{IsSync};

use crate::offices::{MANY_DEBTS, offices_beside, offices_of};
use bank_worker::Office;
use clear_core::Raise;
use clr_net::{Mem, Network};
use pay_words::{Board, PaySeat, Payment};
use std::alloc::Global;
use std::thread::{Threads, join};

/// A board that was just opened, its master, and what the past left on each debt.
#[derive(Drop)]
pub struct Opened {
    pub payments: Vec<Payment>,
    pub board: Board,
    pub master: PaySeat,
}

/// The offices of all workers, the last worker's first, and the board. Where there are many debts
/// and several workers, the board is opened while the offices are made by threads. `Mem` is want of
/// memory.
pub(crate) fn lay_out<R: Threads + Sync>(
    rt: &R,
    alloc: Global,
    net: &Network,
    workers: u32,
    past: &[Raise],
) -> Result<(Vec<Office>, Opened), Mem>
    requires workers { (1 ≤ workers) × (workers ≤ 64) }
    requires past { CanGoOn net.now past.now }
    ensures offices { IfOk result (λ r. AreAllOffices net.now workers r.0.items) }
    ensures opened { IfOk result (λ r. IsOpened net.now workers past.now r.1) }
{
    if workers == 1 || net.debts() < MANY_DEBTS {
        let offices = offices_of(alloc, net, workers)?;
        let opened = open(alloc, net, workers, past)?;
        return Ok((offices, opened));
    }
    let offices = move || -> Result<Vec<Office>, Mem>
        requires { IsSync R.row × (1 ≤ workers) }
        ensures { IfOk result (λ os. AreAllOffices net.entry.now workers os.items) }
    { offices_beside(rt, alloc, net, workers) };
    let board = move || -> Result<Opened, Mem>
        requires { (1 ≤ workers) × (workers ≤ 64) × CanGoOn net.now past.now }
        ensures { IfOk result (IsOpened net.entry.now workers past.entry.now) }
    { open(alloc, net, workers, past) };
    let (offices, opened) = join(rt, offices, board);
    Ok((offices?, opened?))
}

/// A board of so many workers on which the payments of a past stand. `Mem` is want of memory.
pub(crate) fn open(
    alloc: Global,
    net: &Network,
    workers: u32,
    past: &[Raise],
) -> Result<Opened, Mem>
    requires workers { (1 ≤ workers) × (workers ≤ 64) }
    requires past { CanGoOn net.now past.now }
    ensures { IfOk result (IsOpened net.now workers past.now) }
{
    let payments = payments_after(alloc, net, past)?;
    let (board, master) = Board::make(alloc, net, workers, payments.as_slice(), past)?;
    Ok(Opened {
        payments,
        board,
        master,
    })
}

// What the raises of a past left on each debt.
fn payments_after(alloc: Global, net: &Network, past: &[Raise]) -> Result<Vec<Payment>, Mem>
    requires { All (λ r. r.debt.0 < length net.now.debts) past.now }
    ensures { IfOk result (λ ps. ps.items ≡ start_of net.now past.now) }
{
    let mut payments = unpaid(alloc, net.debts() as usize)?;
    for raise in past {
        payments[raise.debt.0 as usize] = Payment {
            value: raise.to,
            stamp: raise.stamp,
        };
    }
    Ok(payments)
}

// As many payments of nothing.
fn unpaid(alloc: Global, debts: usize) -> Result<Vec<Payment>, Mem>
    ensures { IfOk result (λ ps. ps.items ≡ replicate debts unpaid_word) }
{
    let nothing = Payment { value: 0, stamp: 0 };
    let mut payments = Vec::new(alloc);
    payments.resize(debts, nothing)?;
    Ok(payments)
}
