//! A seat: what a thread has in its hands to work on a board.
ghost use Rattle.clear_core.specs.Clearing.{least};
ghost use Rattle.clr_net.specs.Amounts.{IsAtMost};
ghost use Rattle.clr_net.specs.Net.{debtor_of};
ghost use Rattle.clr_net.specs.declared.TheConstants.{MAX_OWED};
ghost use Rattle.pay_words.specs.Holding.{holds};
ghost use Rattle.pay_words.specs.Sound.{IsOver, PaysWithin};
ghost use Rattle.std.specs.Prelude.{◌≡◌, ◌<◌, ◌≤◌, false, length, slice_index, true};

use crate::paid::Paid;
use crate::view::View;
use atomic_table::Seat;
use clr_net::DebtId;
use std::marker::Model;

/// A right to work on a board: to look at what is paid to some banks, and to raise what they pay.
///
/// Contracts see what the seat shows, as [`Shown`](crate::Shown) lists it.
#[derive(Drop)]
pub struct PaySeat {
    pub(crate) seat: Seat<(), View>,
    // What the worker's banks pay. The master has none.
    pub(crate) own: Paid,
    // At the master, what the banks of each worker pay, except of those that were handed out, and
    // the debtor of each debt.
    pub(crate) lists: Vec<Paid>,
    pub(crate) debtors: Vec<u32>,
    // The greatest stamp that it saw or gave.
    pub(crate) clock: u64,
    // How many seats it handed out.
    pub(crate) seats: u64,
    // How many workers the board has, and the number of its own. The master's means nothing.
    pub(crate) workers: u32,
    pub(crate) worker: u32,
}

// Of a seat of a table, `me` is its view and its slots, of which a board has none.
impl Model for PaySeat {
    ghost use Rattle.std.specs.Prelude.{◌≡◌, []};
    ghost use Rattle.pay_words.specs.Memory.{IsInMemory, seat_memory};
    ghost use Rattle.pay_words.specs.Views.{SeatView};

    ghost Value = { SeatView };

    ghost view = { λ s. record {
      table = record { id = s.seat.table_id; workers = s.workers };
      shows = s.seat.me.0.shown;
    } };

    ghost invariant = { λ s. (s.seat.me.1 ≡ []) × IsInMemory s.seat.me.0
        (seat_memory s.own s.lists.items s.debtors.items s.workers s.worker) s.clock s.seats };
}

impl PaySeat {
    /// The clock: no stamp that the seat saw or gave is greater. Takes no memory.
    pub fn clock(&self) -> u64
        ensures clock { result ≡ self.now.shows.clock }
        ensures in_limit { result ≤ MAX_OWED }
        ensures over { IsOver self.now.shows }
        ensures pays_within { PaysWithin self.now.shows }
        ensures sights_below_least { IsAtMost self.now.shows.sights (least self.now.shows.net) }
        ensures paid_below_least { IsAtMost self.now.shows.paid (least self.now.shows.net) }
    {
        self.clock
    }

    /// What the seat of a worker shows as paid on a debt of one of its banks, in units. No atomic
    /// step, and takes no memory.
    pub fn pays(&self, debt: DebtId) -> u64
        requires not_the_master { self.now.shows.master ≡ false }
        requires debt { debt.0 < length self.now.shows.net.debts }
        requires debtor { holds self.now.shows (debtor_of self.now.shows.net debt.0) ≡ true }
        ensures { result ≡ slice_index self.now.shows.paid debt.0 }
    {
        self.own.at(debt.0)
    }
}
