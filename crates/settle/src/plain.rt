//! What the program does not call, for whoever calls the crate: runs on a network that the caller
//! keeps, which is copied, and the rounds alone, on a board of the caller's. The program gives its
//! network away, and leaves the board to the run.
ghost use Rattle.pay_words.specs.Standing.{StaysBelowLeast};
ghost use Rattle.settle.specs.Asks.{MayDrive};
ghost use Rattle.settle.specs.Drives.{IsPlan, IsBelowLeast, IsDriven};
ghost use Rattle.settle.specs.Runs.{CanGoOn, IsRecordOf, IsSettled, IsWithin};
ghost use Rattle.std.specs.Prelude.{◌≡◌, [], IfOk, length};

use crate::drives::drive_on;
use crate::offices::offices_beside;
use crate::plan::{Driven, Plan};
use crate::run::{Engine, Run};
use crate::runs::{Settled, settle_owned};
use clear_core::Raise;
use clr_edge::Gate;
use clr_net::{MAX_OWED, Mem, Network};
use pay_words::{Board, PaySeat};
use std::alloc::Global;
use std::thread::Threads;

/// Clears a network by rounds of workers on one board, until a round raises nothing. The record has
/// a copy of the network. `Mem` is want of memory.
#[tactic(auto, using(crate::proofs::Finished::record_first, crate::proofs::Finished::bounds_first))]
pub fn settle<R: Threads + Sync, G: Gate + Sync>(
    rt: &R,
    alloc: Global,
    net: &Network,
    plan: Plan,
    gate: &G,
) -> Result<Settled, Mem>
    requires plan { IsPlan plan }
    ensures settled { IfOk result (IsSettled net.now [] plan) }
    ensures record_is { IfOk result (λ s. IsRecordOf net.now plan s.rounds s.sealed) }
    ensures bounds { IfOk result (λ s.
        IsWithin net.now plan s.rounds s.visits (length s.sealed.journal)) }
{
    settle_from(rt, alloc, net, plan, &[], gate)
}

/// Clears a network as [`settle`] does, from what the raises of a past left on its debts: those of
/// an earlier run on this network, or on one whose banks had less. Its journal begins with the
/// past. `Mem` is want of memory.
pub fn settle_from<R: Threads + Sync, G: Gate + Sync>(
    rt: &R,
    alloc: Global,
    net: &Network,
    plan: Plan,
    past: &[Raise],
    gate: &G,
) -> Result<Settled, Mem>
    requires plan { IsPlan plan }
    requires past { CanGoOn net.now past.now }
    ensures settled { IfOk result (IsSettled net.now past.now plan) }
{
    let engine = Engine { alloc, plan, gate };
    settle_owned(rt, &engine, net.copy(alloc)?, past)
}

/// Makes rounds on a board that was just opened, until a round raises nothing. Each round hands a
/// seat to each worker, lets all workers make their rounds, and takes the seats back. Several
/// workers go side by side in the first round, and after a round of many visits where one look
/// found bells of two of them up; else they go one after another, since threads cost more than so
/// little work, and look at the bells of those banks alone that were called: the first time all,
/// and then those that were rung.
///
/// The run ends after the first round that raised nothing; each round before it raised a unit.
/// After Ok nobody can pay more. After `Mem` the master may hold fewer banks, and the caller drops
/// the board; neither a word of it nor what the master shows is ever above the least clearing
/// payments.
#[tactic(auto, using(pay_words::proofs::Standing::stays_below_least))]
pub fn drive<R: Threads + Sync, G: Gate + Sync>(
    rt: &R,
    alloc: Global,
    net: &Network,
    plan: Plan,
    past: &[Raise],
    board: &Board,
    master: &mut PaySeat,
    gate: &G,
) -> Result<Driven, Mem>
    requires ready { MayDrive board.now net.now past.now plan master.old }
    ensures table { master.new.table ≡ master.old.table }
    ensures below_least { IsBelowLeast net.now master.new.shows }
    ensures no_word_above { StaysBelowLeast board.now }
    ensures driven { IfOk result
        (IsDriven net.now past.now plan master.old.shows master.new.shows) }
{
    prove!(master.clock() <= MAX_OWED);
    let mut offices = offices_beside(rt, alloc, net, plan.workers)?;
    let engine = Engine { alloc, plan, gate };
    let run = Run {
        engine: &engine,
        net,
        board,
    };
    let driven = drive_on(rt, &run, past, master, &mut offices);
    prove!(master.clock() <= MAX_OWED);
    driven
}
