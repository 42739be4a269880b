ghost use Rattle.pay_words.specs.Ends.{values};
ghost use Rattle.settle.specs.Offices.{AreAllOffices, AreOfficesButCash};
ghost use Rattle.settle.specs.Openings.{HasEnded};
ghost use Rattle.settle.specs.Runs.{CanGoOn, IsRecordOf, IsSettled, IsWithin};
ghost use Rattle.std.specs.Prelude.{◌≡◌, [], IfOk, OnOk, length};

use crate::drives::{drive_in_turn, drive_on};
use crate::offices::move_offices;
use crate::opening::{Opened, lay_out, open};
use crate::plan::Driven;
use crate::run::{Engine, Run};
use bank_worker::Office;
use clear_core::Raise;
use clr_edge::Gate;
use clr_net::{Amounts, MAX_BANKS, Mem, Network};
use pay_words::{Payment, Record};
use std::alloc::Global;
use std::thread::Threads;

/// What a run came to: what is paid on each debt, in units and file order, the record of the board,
/// how many rounds there were, and how many visits.
#[derive(Drop)]
pub struct Settled {
    pub paid: Amounts,
    pub sealed: Record,
    pub rounds: u64,
    pub visits: u64,
}

/// Clears a network as [`settle_from`](crate::settle_from) does, and puts the network itself into the
/// record, which saves the copy. `Mem` is want of memory.
pub fn settle_owned<R: Threads + Sync, G: Gate + Sync>(
    rt: &R,
    engine: &Engine<'_, G>,
    net: Network,
    past: &[Raise],
) -> Result<Settled, Mem>
    requires past { CanGoOn net past.now }
    ensures settled { IfOk result (IsSettled net past.now engine.now.plan) }
{
    let (mut offices, opened) = lay_out(rt, engine.alloc, &net, engine.plan.workers, past)?;
    let Opened {
        payments,
        board,
        mut master,
    } = opened;
    let run = Run {
        engine: &*engine,
        net: &net,
        board: &board,
    };
    let driven = drive_on(rt, &run, past, &mut master, &mut offices)?;
    let ended = Opened {
        payments,
        board,
        master,
    };
    close_run(engine, net, past, ended, driven)
}

/// Clears a network as [`settle_owned`] does, from nothing paid, and starts no thread: all workers go
/// one after another in the calling thread, for a caller whose own threads are at work already. They
/// go at offices of an earlier network, which differs in the cash of its banks alone, and leave them
/// as offices of this one. `Mem` is want of memory.
#[tactic(auto, using(crate::proofs::Finished::record_first, crate::proofs::Finished::bounds_first))]
pub fn settle_alone<G: Gate>(
    engine: &Engine<'_, G>,
    net: Network,
    offices: &mut Vec<Office>,
) -> Result<Settled, Mem>
    requires offices { AreOfficesButCash net engine.now.plan.workers offices.old.items }
    ensures settled { IfOk result (IsSettled net [] engine.now.plan) }
    ensures record_is { IfOk result (λ s. IsRecordOf net engine.now.plan s.rounds s.sealed) }
    ensures bounds { IfOk result (λ s.
        IsWithin net engine.now.plan s.rounds s.visits (length s.sealed.journal)) }
    ensures offices { OnOk result
        (AreAllOffices net engine.now.plan.workers offices.new.items) }
{
    move_offices(offices.as_mut_slice(), &net);
    let opened = open(engine.alloc, &net, engine.plan.workers, &[])?;
    let Opened {
        payments,
        board,
        mut master,
    } = opened;
    let run = Run {
        engine: &*engine,
        net: &net,
        board: &board,
    };
    let driven = drive_in_turn(&run, &[], &mut master, offices)?;
    let ended = Opened {
        payments,
        board,
        master,
    };
    close_run(engine, net, &[], ended, driven)
}

// What a run came to that has ended on this board, which is sealed.
fn close_run<G: Gate>(
    engine: &Engine<'_, G>,
    net: Network,
    past: &[Raise],
    ended: Opened,
    driven: Driven,
) -> Result<Settled, Mem>
    requires past { CanGoOn net past.now }
    requires ended { HasEnded net past.now engine.now.plan ended driven }
    ensures settled { IfOk result (IsSettled net past.now engine.now.plan) }
{
    prove!(net.banks() <= MAX_BANKS);
    let Opened {
        mut payments,
        board,
        master,
    } = ended;
    let Driven {
        journal,
        rounds,
        visits,
    } = driven;
    let sealed = board.seal(master, payments.as_mut_slice(), net, journal);
    let paid = values_of(engine.alloc, payments.as_slice())?;
    Ok(Settled {
        paid,
        sealed,
        rounds,
        visits,
    })
}

// The values of payments.
fn values_of(alloc: Global, payments: &[Payment]) -> Result<Amounts, Mem>
    ensures { IfOk result (λ paid. paid ≡ values payments.now) }
{
    let mut paid = Amounts::zeros(alloc, payments.len())?;
    write_values(paid.as_mut_slice(), payments);
    Ok(paid)
}

// Writes down the values of payments.
fn write_values(into: &mut [u64], payments: &[Payment])
    requires { length into.old ≡ length payments.now }
    ensures { into.new ≡ values payments.now }
{
    for (place, payment) in payments.iter().enumerate() {
        into[place] = payment.value;
    }
}
