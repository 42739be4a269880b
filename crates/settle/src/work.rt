//! The work of a round, by threads or without them.
ghost use Rattle.raise_journal.specs.Gathered.{HasGrownBy, raises_of_all};
ghost use Rattle.settle.specs.Calls.{AllCalledOrAtRest, AreApart};
ghost use Rattle.settle.specs.Rounds.{AreReadyWorkers, AreRounded};
ghost use Rattle.std.specs.Prelude.{◌≡◌, ◌≤◌, [], IfOk, OnOk, length};
ghost use Rattle.std.specs.Thread.{IsSync};

use crate::noting::add_waiting;
use crate::run::Run;
use crate::state::RunState;
use bank_worker::{BankSet, Worker};
use clear_core::Journal;
use clr_edge::Gate;
use clr_net::{MAX_BANKS, Mem};
use std::thread::{Threads, join_mut};

// A round of each of these workers, beside one another, while this thread adds the raises that wait
// to the journal.
pub(crate) fn work_and_add<R: Threads + Sync, G: Gate + Sync>(
    rt: &R,
    run: &Run<'_, G>,
    workers: &mut [Worker],
    journal: &mut Journal,
    waiting: &mut Vec<Journal>,
) -> Result<u64, Mem>
    requires some { length workers.old ≡ run.now.engine.now.plan.workers }
    requires ready { AreReadyWorkers run.now.board.now workers.old }
    ensures rounded { IfOk result (λ n.
        AreRounded run.now.engine.now.plan.sweeps n workers.old workers.new) }
    ensures grown { OnOk result (HasGrownBy journal.old.raises journal.new.raises
        (raises_of_all waiting.old.items)) }
    ensures none_waits { OnOk result (waiting.new.items ≡ []) }
{
    let alloc = run.engine.alloc;
    let mut round = || -> Result<u64, Mem>
        requires { IsSync R.row × IsSync G.row
            × (length workers.now ≡ run.now.engine.now.plan.workers)
            × AreReadyWorkers run.now.board.now workers.now }
        ensures { IfOk result (λ n. AreRounded run.entry.now.engine.now.plan.sweeps n
            workers.entry.now workers.exit.now) }
    { work(rt, run, workers) };
    let mut add = || -> Result<(), Mem>
        ensures grown { OnOk result (HasGrownBy journal.entry.now.raises journal.exit.now.raises
            (raises_of_all waiting.entry.now.items)) }
        ensures none_waits { OnOk result (waiting.exit.now.items ≡ []) }
    { add_waiting(alloc, journal, waiting) };
    let (units, added) = join_mut(rt, &mut round, &mut add);
    added?;
    units
}

// A round of each of these workers, one after another, over those of their banks that are called.
// The raises that wait are added to the journal before.
pub(crate) fn work_in_turn<G: Gate>(
    run: &Run<'_, G>,
    workers: &mut [Worker],
    state: &mut RunState,
) -> Result<u64, Mem>
    requires some { length workers.old ≡ run.now.engine.now.plan.workers }
    requires ready { AreReadyWorkers run.now.board.now workers.old }
    requires called { AllCalledOrAtRest state.old.called workers.old }
    requires apart { AreApart workers.old }
    ensures rounded { IfOk result (λ n.
        AreRounded run.now.engine.now.plan.sweeps n workers.old workers.new) }
    ensures grown { OnOk result (HasGrownBy state.old.journal.raises state.new.journal.raises
        (raises_of_all state.old.waiting.items)) }
    ensures none_waits { OnOk result (state.new.waiting.items ≡ []) }
    ensures offices { state.new.offices ≡ state.old.offices }
{
    let by = run.engine;
    add_waiting(by.alloc, &mut state.journal, &mut state.waiting)?;
    let called = &mut state.called;
    let mut units = 0;
    for worker in workers.iter_mut() {
        let round = worker.round_over(run.board, by.plan.sweeps, by.gate, called, None);
        units += round.units()?;
    }
    Ok(units)
}

// A round of each of these workers, beside one another and over all their banks, down to one: each
// half of the list has a thread of its own.
#[cycle(halves)]
pub(crate) fn work<R: Threads + Sync, G: Gate + Sync>(
    rt: &R,
    run: &Run<'_, G>,
    workers: &mut [Worker],
) -> Result<u64, Mem>
    requires some { (1 ≤ length workers.old) × (length workers.old ≤ 64) }
    requires ready { AreReadyWorkers run.now.board.now workers.old }
    ensures rounded { IfOk result (λ n.
        AreRounded run.now.engine.now.plan.sweeps n workers.old workers.new) }
{
    if workers.len() == 1 {
        let by = run.engine;
        let all = BankSet::all();
        let mut called = BankSet::all();
        let worker = &mut workers[0];
        prove!(worker.desks() <= MAX_BANKS as usize);
        let round = worker.round_over(run.board, by.plan.sweeps, by.gate, &mut called, Some(&all));
        return round.units();
    }
    let (front, back) = workers.split_at_mut(workers.len() / 2);
    let mut low = || -> Result<u64, Mem>
        requires { IsSync R.row × IsSync G.row × (1 ≤ length front.now)
            × (length front.now ≤ 64) × AreReadyWorkers run.now.board.now front.now }
        ensures { IfOk result (λ n. AreRounded run.entry.now.engine.now.plan.sweeps n
            front.entry.now front.exit.now) }
    { work(rt, run, front) };
    let mut high = || -> Result<u64, Mem>
        requires { IsSync R.row × IsSync G.row × (1 ≤ length back.now)
            × (length back.now ≤ 64) × AreReadyWorkers run.now.board.now back.now }
        ensures { IfOk result (λ n. AreRounded run.entry.now.engine.now.plan.sweeps n
            back.entry.now back.exit.now) }
    { work(rt, run, back) };
    let (a, b) = join_mut(rt, &mut low, &mut high);
    Ok(a? + b?)
}
