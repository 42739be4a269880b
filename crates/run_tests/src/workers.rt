//! One worker that is made with an office of its own: a visit, and rounds, on the ring.
ghost use Rattle.bank_worker.specs.Visits.{IsAllCalm, MayRest};
ghost use Rattle.clr_net.specs.Samples.{ring as ring_net};
ghost use Rattle.pay_words.specs.Views.{IsAt, OwesNoRing};
ghost use Rattle.std.specs.Prelude.{◌≡◌, ◌<◌, length};

use crate::boards::new_board;
use crate::gates::Numbers;
use bank_worker::{BankSet, SeatBack, Visit, Worker};
use clr_net::{MAX_BANKS, Mem, Network};
use net_samples::ring;
use pay_words::Board;
use std::alloc::Global;
use std::test::Fail;

// What a worker is asked for.
#[derive(Clone, Copy)]
enum Deed {
    Visit,
    // A round of seven sweeps.
    Round,
    // The same, where all banks are called.
    RoundCalled,
}

// The units of a deed, or nothing after want of memory; and after it the worker's visits, its raises
// and its clock.
type Done = (Option<u64>, u64, usize, u64);

fn round_called(net: &Network, board: &Board, worker: &mut Worker, gate: &Numbers) -> Visit
    requires seat { IsAt board.now worker.old.seat }
    requires net { worker.old.seat.shows.net ≡ net.now }
    requires visits { worker.old.visits ≡ 0 }
    requires idle { OwesNoRing worker.old.seat.shows × IsAllCalm worker.old.seat.shows
        × MayRest worker.old.seat.shows worker.old.desks }
{
    prove!(net.banks() <= MAX_BANKS);
    prove!(worker.desks() <= MAX_BANKS as usize);
    let mut called = BankSet::all();
    worker.round_over(board, 7, gate, &mut called, None)
}

fn asked(net: &Network, board: &Board, worker: &mut Worker, deed: Deed, gate: &Numbers) -> Visit
    requires seat { IsAt board.now worker.old.seat }
    requires net { worker.old.seat.shows.net ≡ net.now }
    requires desk { 0 < length worker.old.desks }
    requires visits { worker.old.visits ≡ 0 }
    requires idle { OwesNoRing worker.old.seat.shows × IsAllCalm worker.old.seat.shows
        × MayRest worker.old.seat.shows worker.old.desks }
{
    match deed {
        Deed::Visit => worker.visit(board, 0, gate),
        Deed::Round => worker.round(board, 7, gate),
        Deed::RoundCalled => round_called(net, board, worker, gate),
    }
}

// What a worker does that is asked for it, and what it has then.
fn done_by(net: &Network, board: &Board, worker: Worker, deed: Deed, gate: &Numbers) -> Done
    requires seat { IsAt board.now worker.seat }
    requires net { worker.seat.shows.net ≡ net.now }
    requires desk { 0 < length worker.desks }
    requires visits { worker.visits ≡ 0 }
    requires idle { OwesNoRing worker.seat.shows × IsAllCalm worker.seat.shows
        × MayRest worker.seat.shows worker.desks }
{
    let mut worker = worker;
    let units = match asked(net, board, &mut worker, deed, gate) {
        Visit::Raised(units) => Some(units),
        Visit::Mem => None,
    };
    let visits = worker.visits();
    let (seat, journal) = worker.finish();
    (units, visits, journal.as_slice().len(), seat.clock())
}

// The same, of the only worker of a new board.
fn done_on(alloc: Global, net: &Network, deed: Deed, gate: &Numbers) -> Result<Done, Mem>
    requires { net.now ≡ ring_net }
{
    let (board, mut master) = new_board(alloc, net, 1)?;
    let seat = board.hand(alloc, &mut master, 0)?;
    match Worker::make(alloc, net, seat, 0, 1) {
        Ok(worker) => Ok(done_by(net, &board, worker, deed, gate)),
        Err(SeatBack { seat: _ }) => Err(Mem),
    }
}

// The same, and the counts of its gate.
fn done(alloc: Global, deed: Deed) -> Result<(Done, [u64; 4]), Mem> {
    let net = ring(alloc)?;
    let gate = Numbers::new(alloc)?;
    let done = done_on(alloc, &net, deed, &gate)?;
    Ok((done, gate.counts()))
}

#[test]
fn a_visit_without_memory_leaves_all_as_it_was(rt: HostRuntime) -> Result<(), Fail> {
    let (told, calls) = done(rt.alloc(), Deed::Visit)?;
    let wanted = match told.0 {
        Some(_) => (Some(1), 1, 1, 1),
        None => (None, 1, 0, 0),
    };
    // It passed the gate, with or without memory.
    assert_eq!(rt; (told, calls), (wanted, [1, 1, 0, 1]));
    if told.0.is_none() {
        println!(rt; "the first visit found no memory")?;
    }
    Ok(())
}

#[test]
fn a_round_has_all_its_sweeps_and_passes_its_gate(rt: HostRuntime) -> Result<(), Fail> {
    for deed in [Deed::Round, Deed::RoundCalled] {
        let told = done(rt.alloc(), deed)?;
        assert_eq!(rt; told, ((Some(10), 11, 10, 10), [11, 1, 0, 1]));
    }
    Ok(())
}
