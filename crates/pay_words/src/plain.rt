//! What the program does not call, for whoever calls the crate.
//!
//! A look by the number of a debt: a visit looks at all debts to a bank, knows where their words
//! stand, and calls [`Board::look_at`]. And what any seat shows as paid, be it the master: a visit
//! has the seat of a worker, and calls [`PaySeat::pays`].
ghost use Rattle.clear_core.specs.Clearing.{least};
ghost use Rattle.clr_net.specs.Net.{creditor_of, debtor_of};
ghost use Rattle.pay_words.specs.Holding.{holds};
ghost use Rattle.pay_words.specs.Paying.{looked};
ghost use Rattle.pay_words.specs.Views.{IsAt};
ghost use Rattle.std.specs.Prelude.{◌≡◌, ◌<◌, ◌≤◌, false, length, slice_index, true};

use crate::board::Board;
use crate::payment::Payment;
use crate::seat::PaySeat;
use clr_net::DebtId;

impl Board {
    /// Looks at what is paid on a debt to a bank of the seat, by one atomic load. Takes no memory.
    ///
    /// It finds no less than the seat saw before or knows to be paid, and no more than the least
    /// clearing payment; and of a debt that a bank of the seat owes, what the seat pays.
    pub fn look(&self, seat: &mut PaySeat, debt: DebtId) -> Payment
        requires seat { IsAt self.now seat.old }
        requires not_the_master { seat.old.shows.master ≡ false }
        requires debt { debt.0 < length self.now.net.debts }
        requires creditor { holds seat.old.shows (creditor_of self.now.net debt.0) ≡ true }
        ensures table { seat.new.table ≡ seat.old.table }
        ensures seen { seat.new.shows ≡ looked seat.old.shows debt.0 result }
        ensures not_below_the_floor { slice_index seat.old.shows.floor debt.0 ≤ result.value }
        ensures never_falls { slice_index seat.old.shows.sights debt.0 ≤ result.value }
        ensures below_least { result.value ≤ slice_index (least self.now.net) debt.0 }
        ensures own { holds seat.old.shows (debtor_of self.now.net debt.0) ≡ true
            → result ≡ record {
              value = slice_index seat.old.shows.paid debt.0;
              stamp = slice_index seat.old.shows.paid_stamps debt.0;
            } }
    {
        self.look_at(seat, debt, self.positions.of_debt(debt))
    }
}

impl PaySeat {
    /// What the seat shows as paid on a debt of one of its banks, in units. No atomic step, and
    /// takes no memory.
    pub fn paid(&self, debt: DebtId) -> u64
        requires debt { debt.0 < length self.now.shows.net.debts }
        requires debtor { holds self.now.shows (debtor_of self.now.shows.net debt.0) ≡ true }
        ensures { result ≡ slice_index self.now.shows.paid debt.0 }
    {
        if self.is_the_master() {
            let worker = self.debtors[debt.0 as usize] % self.workers;
            return self.lists[worker as usize].at(debt.0);
        }
        self.pays(debt)
    }

    // Whether it is the master, which alone has lists: one for each worker, and there is a worker.
    fn is_the_master(&self) -> bool
        ensures { result ≡ self.now.shows.master }
    {
        !self.lists.is_empty()
    }
}
