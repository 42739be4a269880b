//! What the program does not call, for whoever calls the crate: a worker that is made with an
//! office of its own, one that leaves no office behind, and its rounds over all its banks. The
//! program keeps the office, which it makes once, and says which banks are called anew; it calls
//! [`Worker::with`], [`Worker::round_over`] and [`Worker::leave`].
ghost use Rattle.bank_worker.specs.Grows.{MakesRound};
ghost use Rattle.bank_worker.specs.Ready.{IsReadyWorker};
ghost use Rattle.bank_worker.specs.Views.{desks_held};
ghost use Rattle.bank_worker.specs.Visits.{IsAllCalm, MayRest};
ghost use Rattle.pay_words.specs.Views.{OwesNoRing, holds, is_of_worker};
ghost use Rattle.std.specs.Prelude.{◌≡◌, ◌<◌, ◌≤◌, ℕ, [], IfErr, IfOk, Some, codes, false, length};

use crate::bank_set::BankSet;
use crate::office::Office;
use crate::visit::Visit;
use crate::worker::Worker;
use clear_core::Journal;
use clr_edge::Gate;
use clr_net::{Mem, Network};
use pay_words::{Board, PaySeat};
use std::alloc::Global;
use std::fmt;

/// Want of memory, with the seat for which there was none.
#[derive(Drop)]
pub struct SeatBack {
    pub seat: PaySeat,
}

impl fmt::Display for SeatBack {
    ghost output = { λ _. Some (codes "out of memory") };

    fn fmt<W: fmt::Write>(&self, f: &mut fmt::Formatter<W>) -> fmt::Result {
        f.write_str("out of memory")
    }
}

impl Worker {
    /// The worker of this number, with a seat that holds its banks and has made no raise.
    /// `SeatBack` is want of memory.
    ///
    /// Costs a walk over all banks and debts.
    pub fn make(
        alloc: Global,
        net: &Network,
        seat: PaySeat,
        worker: u32,
        workers: u32,
    ) -> Result<Worker, SeatBack>
        requires workers { (1 ≤ workers) × (workers ≤ 64) }
        requires net { net.now ≡ seat.shows.net }
        requires not_the_master { seat.shows.master ≡ false }
        requires banks { (b : ℕ) → b < length net.now.banks
            → holds seat.shows b ≡ is_of_worker workers worker b }
        requires no_raise { seat.shows.raises ≡ [] }
        requires idle { OwesNoRing seat.shows × IsAllCalm seat.shows
            × MayRest seat.shows (desks_held seat.shows) }
        ensures worker { IfOk result (λ w. w ≡ record {
          seat = seat;
          desks = desks_held seat.shows;
          worker = worker;
          visits = 0;
          journal = [];
        }) }
        ensures seat_back { IfErr result (λ e. e.seat ≡ seat) }
    {
        match Office::of(alloc, net, worker, workers) {
            Ok(office) => Ok(Worker::with(alloc, office, seat)),
            Err(Mem) => Err(SeatBack { seat }),
        }
    }

    /// Goes over the desks in order, so many times: takes each bell that is up, and visits that
    /// desk. Ends early after a sweep that found no bell up. Answers the units of all visits, or
    /// `Mem` at the first visit that answers so, and then takes no bell and makes no visit.
    ///
    /// In each sweep all banks are called anew, since another worker may ring at any time.
    pub fn round<G: Gate>(&mut self, board: &Board, sweeps: u32, gate: &G) -> Visit
        requires ready { IsReadyWorker board.now self.old }
        requires sweeps { (1 ≤ sweeps) × (sweeps ≤ 1000) }
        ensures { MakesRound sweeps result self.old self.new }
    {
        // That the banks of the desks are among all banks is known of the office, read here.
        let _ = &self.office;
        self.round_over(
            board,
            sweeps,
            gate,
            &mut BankSet::all(),
            Some(&BankSet::all()),
        )
    }

    /// The seat, and the journal of its raises. Takes no memory.
    pub fn finish(self) -> (PaySeat, Journal)
        ensures seat { result.0 ≡ self.seat }
        ensures journal { result.1.raises ≡ self.journal }
        ensures raises_of_seat { result.1.raises ≡ result.0.shows.raises }
    {
        let (seat, journal, _) = self.leave();
        (seat, journal)
    }
}
