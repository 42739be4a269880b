//! A worker, and what it does in one visit.
ghost use Rattle.bank_worker.specs.Called.{AreCalledTo, AreCreditorsIn, StayIn};
ghost use Rattle.bank_worker.specs.Grows.{Grows};
ghost use Rattle.bank_worker.specs.Offices.{IsOfficeFor};
ghost use Rattle.bank_worker.specs.Views.{banks_held, desk_at, desks_held};
ghost use Rattle.bank_worker.specs.Visits.{IsDown, IsSameWorker, IsVisited, WhenMem, WhenRaised};
ghost use Rattle.clr_net.specs.Limits.{IsNetwork};
ghost use Rattle.clr_net.specs.declared.TheConstants.{MAX_BANKS, MAX_OWED};
ghost use Rattle.pay_words.specs.Views.{IsAt, OwesNoRing, holds, took};
ghost use Rattle.std.specs.Prelude.{◌≡◌, ◌+◌, ◌^◌, ◌<◌, ◌≤◌, ℕ, [], drop, false, if◌then◌else◌};
ghost use Rattle.std.specs.Prelude.{length, slice_index, true};

use crate::bank_set::BankSet;
use crate::office::Office;
use crate::visit::Visit;
use clear_core::{Journal, Raise};
use clr_edge::Gate;
use clr_net::{BankId, MAX_BANKS};
use pay_words::{Board, PaySeat};
use std::alloc::Global;
use std::marker::Model;

/// One of the workers of a board: a seat, a desk for each bank of the seat, and a journal of the
/// seat's raises.
///
/// Contracts see the seat as it shows itself, the desks, the worker's number, its visits and its
/// journal. The journal always is the seat's raises, and the seat owes no ring.
#[derive(Drop)]
pub struct Worker {
    pub(crate) seat: PaySeat,
    pub(crate) office: Office,
    pub(crate) visits: u64,
    pub(crate) journal: Journal,
}

impl Model for Worker {
    ghost use Rattle.bank_worker.specs.Views.{WorkerView};
    ghost use Rattle.bank_worker.specs.Staff.{IsStaffed};

    ghost Value = { WorkerView };

    ghost view = { λ w. record {
      seat = w.seat;
      desks = w.office.desks;
      worker = w.office.worker;
      visits = w.visits;
      journal = w.journal.raises;
    } };

    ghost invariant = { λ w. IsStaffed w.seat.shows w.journal.raises w.office };
}

impl Worker {
    /// The worker of an office, with a seat for the same banks of the same network. Takes no
    /// memory, and its cost does not grow with the network.
    pub fn with(alloc: Global, mut office: Office, seat: PaySeat) -> Worker
        requires office { IsOfficeFor seat.shows.net (banks_held seat.shows) office }
        requires not_the_master { seat.shows.master ≡ false }
        requires no_raise { seat.shows.raises ≡ [] }
        requires no_rings { OwesNoRing seat.shows }
        ensures { result ≡ record {
          seat = seat;
          desks = desks_held seat.shows;
          worker = office.worker;
          visits = 0;
          journal = [];
        } }
    {
        let journal = office.begin(alloc);
        Worker {
            seat,
            office,
            visits: 0,
            journal,
        }
    }

    /// How many desks there are: one for each bank of the seat.
    pub fn desks(&self) -> usize
        ensures desks { result ≡ length self.now.desks }
        ensures held { self.now.desks ≡ desks_held self.now.seat.shows }
        ensures in_limit { result ≤ MAX_BANKS }
        ensures network { IsNetwork self.now.seat.shows.net }
        ensures no_rings { OwesNoRing self.now.seat.shows }
    {
        self.office.desks().len()
    }

    /// How many visits were begun. One that answered `Mem` counts too.
    pub fn visits(&self) -> u64
        ensures { result ≡ self.now.visits }
    {
        self.visits
    }

    /// Visits the bank of one desk: passes the gate, looks at each debt that is owed to the bank,
    /// makes it pay what its rule gives from its cash and these values, less what it owes outside
    /// the network, and rings each creditor that is paid more. Answers by how many units it pays
    /// more.
    ///
    /// `Mem` is want of memory, and comes before the first look: the worker has begun a visit more,
    /// and is else as it was.
    pub fn visit<G: Gate>(&mut self, board: &Board, place: usize, gate: &G) -> Visit
        requires seat { IsAt board.now self.old.seat }
        requires place { place < length self.old.desks }
        requires visits { self.old.visits < 2 ^ 63 }
        ensures same_worker { IsSameWorker self.old self.new }
        ensures visits { self.new.visits ≡ self.old.visits + 1 }
        ensures raised { WhenRaised result
            (λ n. IsVisited (desk_at self.old.desks place) n self.old self.new) }
        ensures grows { WhenRaised result (λ n. Grows n self.old self.new) }
        ensures units_in_limit { WhenRaised result (λ n. n ≤ MAX_OWED) }
        ensures no_rings { OwesNoRing self.new.seat.shows }
        ensures mem { WhenMem result ((self.new.seat ≡ self.old.seat)
            × (self.new.journal ≡ self.old.journal)) }
    {
        self.visits += 1;
        gate.at(self.office.worker(), self.visits);
        let debts = self.office.desks().at(place).debts_out();
        let Ok(()) = self.journal.reserve(debts.len()) else {
            return Visit::Mem;
        };
        let seat = &mut self.seat;
        Visit::Raised(self.office.visit(board, seat, &mut self.journal, place))
    }

    /// The seat, the journal of its raises, and the office, which may be given another seat for
    /// the same banks. Takes no memory.
    pub fn leave(self) -> (PaySeat, Journal, Office)
        ensures seat { result.0 ≡ self.seat }
        ensures journal { result.1.raises ≡ self.journal }
        ensures raises_of_seat { result.1.raises ≡ result.0.shows.raises }
        ensures office { IsOfficeFor self.seat.shows.net (banks_held self.seat.shows) result.2 }
        ensures worker { result.2.worker ≡ self.worker }
    {
        let Worker {
            seat,
            journal,
            office,
            ..
        } = self;
        (seat, journal, office)
    }

    /// Calls the creditors of the debts that were raised, from this place of the journal on.
    pub fn call_creditors(&self, from: usize, called: &mut BankSet)
        requires { from ≤ length self.now.journal }
        ensures kept { StayIn called.old called.new }
        ensures creditors { AreCreditorsIn self.now.seat.shows.net called.new
            (drop from self.now.journal) }
    {
        let (_, made) = self.journal.as_slice().split_at(from);
        call_all(self.office.creditors(), made, called);
    }

    // The bank of a desk.
    pub(crate) fn bank(&self, place: usize) -> BankId
        requires { place < length self.now.desks }
        ensures bank { result.0 ≡ (desk_at self.now.desks place).bank }
        ensures few { result.0 < MAX_BANKS }
        ensures held { holds self.now.seat.shows result.0 ≡ true }
    {
        let banks = self.office.desks().banks();
        BankId(banks[place])
    }

    // Takes the bell of a desk's bank, and answers whether it was up.
    #[tactic(auto, using(crate::proofs::Staffed::staffed_taken))]
    pub(crate) fn take(&mut self, board: &Board, place: usize) -> bool
        requires seat { IsAt board.now self.old.seat }
        requires place { place < length self.old.desks }
        ensures taken { self.new ≡ record self.old {
          seat = record self.old.seat {
            shows = if result
                then took self.old.seat.shows (desk_at self.old.desks place).bank
                else self.old.seat.shows;
          };
        } }
        ensures down { result ≡ false
            → IsDown self.old.seat.shows (desk_at self.old.desks place).bank }
    {
        let bank = self.bank(place);
        board.take(&mut self.seat, bank)
    }
}

// Calls the creditors of the debts of these raises. Each of the debts has one; a journal does not
// say so, and so it is looked for.
fn call_all(creditors: &[u16], raises: &[Raise], called: &mut BankSet)
    requires banks { (x : ℕ) → slice_index creditors.now x < MAX_BANKS }
    ensures kept { StayIn called.old called.new }
    ensures creditors { AreCalledTo creditors.now called.new raises.now (length raises.now) }
{
    let debts = creditors.len();
    for raise in raises {
        let debt = raise.debt.0 as usize;
        if debt < debts {
            called.add(BankId(creditors[debt] as u32));
        }
    }
}
