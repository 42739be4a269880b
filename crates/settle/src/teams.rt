ghost use Rattle.pay_words.specs.declared.TheConstants.{MAX_SEATS};
ghost use Rattle.settle.specs.Asks.{AreTakenBack, IsReady, IsRoundOn, MayClose};
ghost use Rattle.settle.specs.Between.{IsBetween, opened_workers, without_first};
ghost use Rattle.settle.specs.Calls.{OthersAreAtRest};
ghost use Rattle.settle.specs.Offices.{AreAllOffices};
ghost use Rattle.std.specs.Prelude.{◌≡◌, ◌+◌, ◌<◌, ◌≤◌, [], IfOk, OnOk};
ghost use Rattle.std.specs.Prelude.{sum_by};

use crate::noting::note;
use crate::run::{Run, Way};
use crate::state::RunState;
use crate::work::{work, work_and_add, work_in_turn};
use bank_worker::{BankSet, Office, Worker};
use clr_edge::Gate;
use clr_net::{BankId, MAX_OWED, Mem, Network};
use pay_words::{Board, PaySeat};
use std::thread::Threads;

// After a round of fewer visits threads would cost more than they save.
const MANY_VISITS: u64 = 512;

// Hands a seat to each worker, from the first one on, which takes it to its office.
fn open_workers<G: Gate>(
    run: &Run<'_, G>,
    master: &mut PaySeat,
    offices: &mut Vec<Office>,
) -> Result<Vec<Worker>, Mem>
    requires offices { AreAllOffices run.now.net.now run.now.engine.now.plan.workers
        offices.old.items }
    requires table { master.old.table ≡ run.now.board.now.table }
    requires between { IsBetween run.now.net.now master.old.shows }
    requires seats { master.old.shows.seats + run.now.engine.now.plan.workers < MAX_SEATS }
    ensures table { master.new.table ≡ master.old.table }
    ensures net { master.new.shows.net ≡ master.old.shows.net }
    ensures rest { OnOk result (master.new.shows ≡ without_first run.now.engine.now.plan.workers
        run.now.engine.now.plan.workers master.old.shows) }
    ensures opened { IfOk result (λ ws. ws.items ≡ opened_workers run.now.engine.now.plan.workers
        run.now.board.now.table master.old.shows run.now.engine.now.plan.workers) }
    ensures offices { OnOk result (offices.new.items ≡ []) }
{
    let alloc = run.engine.alloc;
    let workers = run.engine.plan.workers;
    let mut opened = Vec::with_capacity(alloc, workers as usize)?;
    for number in 0..workers {
        let seat = run.board.hand(alloc, master, number)?;
        let Some(office) = offices.pop() else {
            unreachable!()
        };
        opened.push(Worker::with(alloc, office, seat))?;
    }
    Ok(opened)
}

// Takes the seats of the workers back, from the last one on, notes their raises, calls the creditors
// of these, and keeps their offices. Answers how many visits they made.
fn close_workers<G: Gate>(
    run: &Run<'_, G>,
    master: &mut PaySeat,
    mut workers: Vec<Worker>,
    state: &mut RunState,
    way: Way,
) -> Result<u64, Mem>
    requires { MayClose run.now.board.now workers.items master.old state.old }
    ensures table { master.new.table ≡ master.old.table }
    ensures net { master.new.shows.net ≡ master.old.shows.net }
    ensures back { OnOk result (AreTakenBack run.now.board.now workers.items master.old.shows
        state.old master.new.shows state.new) }
    ensures visits { IfOk result (λ n. master.new.shows.taken ≡ master.old.shows.taken + n) }
    ensures sum { IfOk result (λ n. n ≡ sum_by (λ w. w.visits) workers.items) }
{
    let from = state.journal.as_slice().len();
    let count = workers.len();
    let mut visits = 0;
    while let Some(worker) = workers.pop() {
        visits += worker.visits();
        worker.call_creditors(0, &mut state.called);
        let (seat, made, mut office) = worker.leave();
        run.board.take_back(master, seat);
        let left = note(
            run.engine.alloc,
            &mut state.journal,
            &mut state.waiting,
            from,
            made,
            count,
            way,
        )?;
        office.keep(left);
        state.offices.push(office)?;
    }
    Ok(visits)
}

/// Whether two workers have a bell up, by one look at each bell. No clause can say it: any thread
/// may ring a bell at any time.
pub fn calls_two_workers(net: &Network, board: &Board, workers: u32) -> bool
    requires workers { 1 ≤ workers }
    requires net { net.now ≡ board.now.net }
{
    if workers == 1 {
        return false;
    }
    let mut called = None;
    for bank in 0..net.banks() {
        if board.is_up(BankId(bank)) {
            let worker = bank % workers;
            match called {
                Some(other) if other != worker => return true,
                _ => called = Some(worker),
            }
        }
    }
    false
}

/// A round of all workers: hands a seat to each worker, lets each make its round at its office, takes
/// the seats back, and notes all raises. Those that waited are added to the journal meanwhile, merged
/// by stamp. Answers by how many units payments rose, and how many visits there were.
///
/// Where threads pay, after a round of so many visits, if there was one, the workers go beside one
/// another; else as in [`round_in_turn`].
///
/// After Ok the master may begin another round. While all bells are down then, nobody can pay more
/// ([`laws`](crate::laws)). After `Mem`, which is want of memory, the master may hold fewer banks,
/// and the caller drops the board.
pub fn round<R: Threads + Sync, G: Gate + Sync>(
    rt: &R,
    run: &Run<'_, G>,
    master: &mut PaySeat,
    state: &mut RunState,
    last: Option<u64>,
) -> Result<(u64, u64), Mem>
    requires ready { IsReady run.now.board.now run.now.net.now run.now.engine.now.plan
        master.old state.old }
    requires called { OthersAreAtRest run.now.net.now state.old.called master.old.shows }
    requires seats { master.old.shows.seats + run.now.engine.now.plan.workers < MAX_SEATS }
    ensures table { master.new.table ≡ master.old.table }
    ensures net { master.new.shows.net ≡ master.old.shows.net }
    ensures round { IfOk result (λ r. IsRoundOn run.now.board.now run.now.net.now
        run.now.engine.now.plan r.0 r.1 master.old state.old master.new state.new) }
{
    if !threads_pay(run, last) {
        return round_in_turn(run, master, state);
    }
    let mut workers = open_workers(run, master, &mut state.offices)?;
    // No bank need be called any more, since each worker looks at all its banks.
    state.called = BankSet::none();
    let made = if state.waiting.is_empty() {
        work(rt, run, &mut workers)
    } else {
        work_and_add(
            rt,
            run,
            &mut workers,
            &mut state.journal,
            &mut state.waiting,
        )
    };
    let units = made?;
    let visits = close_workers(run, master, workers, state, Way::Beside)?;
    prove!(master.clock() <= MAX_OWED);
    Ok((units, visits))
}

/// A round as [`round`] makes it, of workers that go one after another in the calling thread. They
/// look at the bells of those banks alone that are called. A bank that is not called has seen what is
/// paid to it, and pays its division, before the round and after it.
pub fn round_in_turn<G: Gate>(
    run: &Run<'_, G>,
    master: &mut PaySeat,
    state: &mut RunState,
) -> Result<(u64, u64), Mem>
    requires ready { IsReady run.now.board.now run.now.net.now run.now.engine.now.plan
        master.old state.old }
    requires called { OthersAreAtRest run.now.net.now state.old.called master.old.shows }
    requires seats { master.old.shows.seats + run.now.engine.now.plan.workers < MAX_SEATS }
    ensures table { master.new.table ≡ master.old.table }
    ensures net { master.new.shows.net ≡ master.old.shows.net }
    ensures round { IfOk result (λ r. IsRoundOn run.now.board.now run.now.net.now
        run.now.engine.now.plan r.0 r.1 master.old state.old master.new state.new) }
{
    let mut workers = open_workers(run, master, &mut state.offices)?;
    let units = work_in_turn(run, &mut workers, state)?;
    let visits = close_workers(run, master, workers, state, Way::InTurn)?;
    prove!(master.clock() <= MAX_OWED);
    Ok((units, visits))
}

// Whether threads pay for the next round, after one of so many visits, if there was one.
fn threads_pay<G: Gate>(run: &Run<'_, G>, last: Option<u64>) -> bool {
    let workers = run.engine.plan.workers;
    match last {
        None => workers > 1,
        Some(visits) => visits >= MANY_VISITS && calls_two_workers(run.net, run.board, workers),
    }
}
