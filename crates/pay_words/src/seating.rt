//! Seats that the master hands out to workers, and takes back.
ghost use Rattle.pay_words.specs.Holding.{HoldsAllOf};
ghost use Rattle.pay_words.specs.Making.{HandsOut, MayHandOut};
ghost use Rattle.pay_words.specs.Ringing.{OwesNoRing};
ghost use Rattle.pay_words.specs.Seating.{handed, rejoined, without};
ghost use Rattle.pay_words.specs.Views.{IsAt};
ghost use Rattle.pay_words.specs.declared.TheConstants.{MAX_SEATS};
ghost use Rattle.std.specs.Prelude.{◌≡◌, ◌<◌, IfOk, OnErr, OnOk, false, true};

use crate::board::Board;
use crate::paid::Paid;
use crate::rule::{Both, Chosen, Part, Roll};
use crate::seat::PaySeat;
use clr_net::Mem;
use std::alloc::Global;
use std::marker::Brand;
use std::mem;

impl Board {
    /// Hands the banks of a worker to a new seat. Where there is no memory nothing has changed.
    ///
    /// What the banks pay goes to the seat as it lies in memory, so the cost does not grow with the
    /// network.
    pub fn hand(&self, alloc: Global, master: &mut PaySeat, worker: u32) -> Result<PaySeat, Mem>
        requires master { IsAt self.now master.old }
        requires is_the_master { master.old.shows.master ≡ true }
        requires worker { worker < self.now.table.workers }
        requires banks { HoldsAllOf self.now.table.workers worker master.old.shows }
        requires seats { master.old.shows.seats < MAX_SEATS }
        ensures table { master.new.table ≡ master.old.table }
        ensures rest { OnOk result (master.new.shows
            ≡ without self.now.table.workers worker master.old.shows) }
        ensures seat { IfOk result (λ s. (s.table ≡ self.now.table)
            × (s.shows ≡ handed self.now.table.workers worker master.old.shows)) }
        ensures unchanged { OnErr result (master.new.shows ≡ master.old.shows) }
    {
        self.hand_out::<Brand>(alloc, master, worker)
    }

    // The worker is a member of a type, so that the rule can split the master's view by it.
    fn hand_out<C: Chosen>(
        &self,
        alloc: Global,
        master: &mut PaySeat,
        worker: u32,
    ) -> Result<PaySeat, Mem>
        requires may_hand { MayHandOut self.now master.old worker }
        requires chosen { (C.workers ≡ self.now.table.workers) × (C.worker ≡ worker) }
        ensures { HandsOut self.now worker master.old master.new result }
    {
        // The roll counts the master and the seats that it handed out, with the new one.
        self.table
            .shared
            .store::<Roll>(&mut master.seat, 0, master.seats + 2);
        let seat = self.table.shared.split_seat::<Part<C>>(&mut master.seat);
        let own = mem::replace(&mut master.lists[worker as usize], Paid::none(alloc));
        master.seats += 1;
        Ok(PaySeat {
            seat,
            own,
            lists: Vec::new(alloc),
            debtors: Vec::new(alloc),
            clock: master.clock,
            seats: 0,
            workers: self.workers,
            worker,
        })
    }

    /// Takes a seat back: its banks, and all that it shows of them, are the master's again. The
    /// seat owes no ring. Takes no memory, and its cost does not grow with the network.
    pub fn take_back(&self, master: &mut PaySeat, seat: PaySeat)
        requires master { IsAt self.now master.old }
        requires is_the_master { master.old.shows.master ≡ true }
        requires seat { IsAt self.now seat }
        requires not_the_master { seat.shows.master ≡ false }
        requires rings { OwesNoRing seat.shows }
        ensures table { master.new.table ≡ master.old.table }
        ensures rejoined { master.new.shows ≡ rejoined master.old.shows seat.shows }
    {
        let PaySeat {
            seat,
            own,
            clock,
            worker,
            ..
        } = seat;
        self.table.shared.join_seat::<Both>(&mut master.seat, seat);
        master.clock = master.clock.max(clock);
        master.lists[worker as usize] = own;
    }
}
