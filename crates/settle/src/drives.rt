//! The rounds of a run, until one raises nothing.
ghost use Rattle.clear_core.specs.History.{ordered};
ghost use Rattle.settle.specs.Asks.{MayBegin};
ghost use Rattle.settle.specs.Between.{noted_in};
ghost use Rattle.settle.specs.Drives.{IsDriven};
ghost use Rattle.settle.specs.Offices.{AreAllOffices};
ghost use Rattle.std.specs.Prelude.{◌≡◌, IfOk, OnOk};

use crate::noting::add_waiting;
use crate::plan::Driven;
use crate::run::Run;
use crate::state::RunState;
use crate::teams::{round, round_in_turn};
use bank_worker::Office;
use clear_core::{Journal, Raise};
use clr_edge::Gate;
use clr_net::{MAX_BANKS, MAX_OWED, Mem};
use pay_words::PaySeat;
use raise_journal::in_order;
use std::alloc::Global;
use std::mem;
use std::thread::Threads;

// The rounds themselves, by workers at these offices: by threads where they pay, which they never do
// for one worker.
pub(crate) fn drive_on<R: Threads + Sync, G: Gate + Sync>(
    rt: &R,
    run: &Run<'_, G>,
    past: &[Raise],
    master: &mut PaySeat,
    offices: &mut Vec<Office>,
) -> Result<Driven, Mem>
    requires begin { MayBegin run.now.board.now run.now.net.now past.now run.now.engine.now.plan
        master.old offices.old.items }
    ensures table { master.new.table ≡ master.old.table }
    ensures net { master.new.shows.net ≡ run.now.net.now }
    ensures offices { OnOk result
        (AreAllOffices run.now.net.now run.now.engine.now.plan.workers offices.new.items) }
    ensures driven { IfOk result (IsDriven run.now.net.now past.now run.now.engine.now.plan
        master.old.shows master.new.shows) }
{
    if run.engine.plan.workers == 1 {
        return drive_in_turn(run, past, master, offices);
    }
    let held = mem::replace(offices, Vec::new(run.engine.alloc));
    let mut state = RunState::of(run.engine.alloc, past, held)?;
    prove!(master.clock() <= MAX_OWED);
    prove!(run.net.banks() <= MAX_BANKS);
    let mut rounds = 0;
    let mut visits = 0;
    let mut last = None;
    loop {
        let (units, more) = round(rt, run, master, &mut state, last)?;
        rounds += 1;
        visits += more;
        last = Some(more);
        if units == 0 {
            break;
        }
    }
    let journal = left_in(run.engine.alloc, state, offices)?;
    Ok(Driven {
        journal,
        rounds,
        visits,
    })
}

// The same, in the calling thread alone.
pub(crate) fn drive_in_turn<G: Gate>(
    run: &Run<'_, G>,
    past: &[Raise],
    master: &mut PaySeat,
    offices: &mut Vec<Office>,
) -> Result<Driven, Mem>
    requires begin { MayBegin run.now.board.now run.now.net.now past.now run.now.engine.now.plan
        master.old offices.old.items }
    ensures table { master.new.table ≡ master.old.table }
    ensures net { master.new.shows.net ≡ run.now.net.now }
    ensures offices { OnOk result
        (AreAllOffices run.now.net.now run.now.engine.now.plan.workers offices.new.items) }
    ensures driven { IfOk result (IsDriven run.now.net.now past.now run.now.engine.now.plan
        master.old.shows master.new.shows) }
{
    let held = mem::replace(offices, Vec::new(run.engine.alloc));
    let mut state = RunState::of(run.engine.alloc, past, held)?;
    prove!(master.clock() <= MAX_OWED);
    prove!(run.net.banks() <= MAX_BANKS);
    let mut rounds = 0;
    let mut visits = 0;
    loop {
        let (units, more) = round_in_turn(run, master, &mut state)?;
        rounds += 1;
        visits += more;
        if units == 0 {
            break;
        }
    }
    let journal = left_in(run.engine.alloc, state, offices)?;
    Ok(Driven {
        journal,
        rounds,
        visits,
    })
}

// All raises of a run after its last round, in order. Its offices are given back.
fn left_in(alloc: Global, state: RunState, offices: &mut Vec<Office>) -> Result<Journal, Mem>
    ensures journal { IfOk result (λ j.
        j.raises ≡ ordered (noted_in state.journal.raises state.waiting.items)) }
    ensures offices { offices.new ≡ state.offices }
{
    let RunState {
        mut journal,
        mut waiting,
        offices: left,
        called: _,
    } = state;
    *offices = left;
    add_waiting(alloc, &mut journal, &mut waiting)?;
    in_order(journal)
}
