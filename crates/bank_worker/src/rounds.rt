//! The rounds of a worker: sweeps over the desks whose banks are called.
ghost use Rattle.bank_worker.specs.BankSets.{is_in};
ghost use Rattle.bank_worker.specs.Called.{AreCalledOrAtRest, CallsOthers, KeepsOthers, StayIn};
ghost use Rattle.bank_worker.specs.Grows.{MakesRound};
ghost use Rattle.bank_worker.specs.Ready.{IsReadyWorker};
ghost use Rattle.bank_worker.specs.Views.{desk_at};
ghost use Rattle.bank_worker.specs.Visits.{IsAllCalm, MayRest, WhenRaised};
ghost use Rattle.clr_net.specs.declared.TheConstants.{MAX_BANKS, MAX_OWED};
ghost use Rattle.pay_words.specs.Views.{IsAt};
ghost use Rattle.std.specs.Prelude.{◌≡◌, ◌+◌, ◌*◌, ◌^◌, ◌<◌, ◌≤◌, ℕ, IfNone, IfSome, false, length};
ghost use Rattle.std.specs.Prelude.{true};

use crate::bank_set::BankSet;
use crate::visit::Visit;
use crate::worker::Worker;
use clr_edge::Gate;
use clr_net::{BankId, MAX_BANKS};
use pay_words::Board;

impl Worker {
    /// Makes a round over the called banks of the worker: so many sweeps over their desks, in
    /// order, each of which takes each bell that is up, and visits that desk. Ends early after a
    /// sweep that found no bell up. Answers the units of all visits, or `Mem` at the first visit
    /// that answers so: the bell of its bank was taken, and after it nothing is done.
    ///
    /// Before each sweep the banks of `anew`, if any, are called anew: all of them where other
    /// workers may ring meanwhile. A bank that was never visited, or that may not have seen what
    /// was paid to it before the seat was handed out, is called. Each bank that is rung is called,
    /// of whichever worker; a bank of the seat is so no more once its bell was found down or was
    /// taken.
    pub fn round_over<G: Gate>(
        &mut self,
        board: &Board,
        sweeps: u32,
        gate: &G,
        called: &mut BankSet,
        anew: Option<&BankSet>,
    ) -> Visit
        requires ready { IsReadyWorker board.now self.old }
        requires sweeps { (1 ≤ sweeps) × (sweeps ≤ 1000) }
        requires called { AreCalledOrAtRest called.old self.old.seat.shows self.old.desks }
        ensures round { MakesRound sweeps result self.old self.new }
        ensures keeps_others { KeepsOthers self.old.seat.shows called.old called.new }
        ensures rung { CallsOthers self.old self.new called.new }
    {
        // As each desk is of a bank of its own, units and visits of all sweeps fit.
        let desks = self.desks();
        prove!(desks <= MAX_BANKS as usize);
        let last = self.last();
        let mut units = 0;
        for _ in 0..sweeps {
            let visits = self.visits;
            call_anew(called, anew, last);
            match self.sweep(board, gate, called) {
                Visit::Raised(more) => units += more,
                Visit::Mem => return Visit::Mem,
            }
            if self.visits == visits {
                break;
            }
        }
        Visit::Raised(units)
    }

    // One sweep over the desks whose banks are called, in order.
    fn sweep<G: Gate>(&mut self, board: &Board, gate: &G, called: &mut BankSet) -> Visit
        requires seat { IsAt board.now self.old.seat }
        requires visits { self.old.visits < 2 ^ 62 + 2 ^ 61 }
        requires idle { IsAllCalm self.old.seat.shows
            × MayRest self.old.seat.shows self.old.desks }
        requires called { AreCalledOrAtRest called.old self.old.seat.shows self.old.desks }
        ensures round { MakesRound 1 result self.old self.new }
        ensures few { WhenRaised result (λ n. n ≤ length self.old.desks * MAX_OWED) }
        ensures keeps_others { KeepsOthers self.old.seat.shows called.old called.new }
        ensures rung { CallsOthers self.old self.new called.new }
    {
        let desks = self.desks();
        let mut units = 0;
        let mut from = 0;
        'sweep: loop {
            let place = self.next_called(called, from);
            if place >= desks {
                return Visit::Raised(units);
            }
            called.remove(self.bank(place));
            if self.take(board, place) {
                let before = self.journal.as_slice().len();
                match self.visit(board, place, gate) {
                    Visit::Raised(more) => units += more,
                    Visit::Mem => return Visit::Mem,
                }
                self.call_creditors(before, called);
            }
            from = place + 1;
        }
    }

    // The next place from this one on whose bank is called, or one past all desks.
    fn next_called(&self, called: &BankSet, from: usize) -> usize
        requires from { from ≤ length self.now.desks }
        ensures ahead { from ≤ result }
        ensures none_before { (k : ℕ) → from ≤ k → k < result → k < length self.now.desks
            → is_in called.now (desk_at self.now.desks k).bank ≡ false }
        ensures called_there { result < length self.now.desks
            → is_in called.now (desk_at self.now.desks result).bank ≡ true }
    {
        self.office.desks().next_called(called, from)
    }

    // The bank of the last desk, or the first bank of all where there is no desk: no desk is of a
    // later one.
    fn last(&self) -> BankId
        ensures few { result.0 < MAX_BANKS }
        ensures none_after { (k : ℕ) → k < length self.now.desks
            → (desk_at self.now.desks k).bank ≤ result.0 }
    {
        let desks = self.desks();
        if desks == 0 {
            return BankId(0);
        }
        self.bank(desks - 1)
    }
}

// Calls these banks, if any, up to the last one.
#[tactic(auto, using(crate::proofs::Calling::stay_in_part, crate::proofs::Calling::has_part))]
fn call_anew(called: &mut BankSet, anew: Option<&BankSet>, last: BankId)
    requires { last.0 < MAX_BANKS }
    ensures kept { StayIn called.old called.new }
    ensures anew { IfSome anew.entry (λ banks. (b : ℕ) → b ≤ last.0
        → is_in banks.now b ≡ true → is_in called.new b ≡ true) }
    ensures none { IfNone anew.entry (called.new ≡ called.old) }
{
    if let Some(banks) = anew {
        called.add_up_to(banks, last);
    }
}
