//! A board, from its making to its closing.
ghost use Rattle.clear_core.specs.History.{ordered};
ghost use Rattle.pay_words.specs.Belongs.{Belongs};
ghost use Rattle.pay_words.specs.Ends.{Ends};
ghost use Rattle.pay_words.specs.Holding.{HoldsAll};
ghost use Rattle.pay_words.specs.Making.{AreMade};
ghost use Rattle.pay_words.specs.Seating.{opening};
ghost use Rattle.pay_words.specs.Views.{IsAt};
ghost use Rattle.std.specs.Prelude.{◌≡◌, ◌≤◌, ◌++◌, IfOk, length, true};

use crate::opening::{debtors_of, opening_clock, opening_words};
use crate::origin::{Founding, Origin, origin_of};
use crate::paid::Paid;
use crate::payment::Payment;
use crate::positions::Positions;
use crate::record::Record;
use crate::rule::Clearing;
use crate::seat::PaySeat;
use crate::view::View;
use atomic_table::{Seat, Table};
use clear_core::{Journal, Raise};
use clr_net::{DebtId, Mem, Network};
use std::alloc::Global;
use std::marker::{Brand, Model};

/// The words of the payments on all debts of a network, on which any number of threads work at
/// once, each by a seat.
///
/// Contracts see its network, its past, which are the raises that were made before it, and its
/// place, which has its number of workers.
#[derive(Drop)]
pub struct Board {
    // The roll word, a word for each debt, by positions, and the bells. The table's key has the
    // origin.
    pub(crate) table: Table<(), View, Seat<(), Origin>, Clearing, Global>,
    pub(crate) debts: usize,
    pub(crate) positions: Positions,
    // How many raises were made before the board.
    past: usize,
    pub(crate) workers: u32,
}

impl Model for Board {
    ghost use Rattle.pay_words.specs.Memory.{IsLaidOut};
    ghost use Rattle.pay_words.specs.Positions.{ArePositions};
    ghost use Rattle.pay_words.specs.Views.{BoardView};
    ghost use Rattle.std.specs.Prelude.{◌≡◌, length};

    ghost Value = { BoardView };

    ghost view = { λ b. record {
      table = record { id = b.table.shared.table_id; workers = b.workers };
      net = b.table.shared.key.me.0.net;
      past = b.table.shared.key.me.0.past;
    } };

    ghost invariant = { λ b. IsLaidOut b.table.shared.key.me.0.net b.table.shared.table_id.words
        b.table.shared.table_id.slots b.debts b.workers
        × (b.past ≡ length b.table.shared.key.me.0.past)
        × ArePositions b.table.shared.key.me.0.net b.positions };
}

impl Board {
    /// A board on which the payments of a past stand, and its master, which holds all banks.
    ///
    /// `start` is over all debts, in file order. Costs walks over all banks and debts, and beside the
    /// words eight bytes for each debt, and four for each debt and worker.
    pub fn make(
        alloc: Global,
        net: &Network,
        workers: u32,
        start: &[Payment],
        past: &[Raise],
    ) -> Result<(Board, PaySeat), Mem>
        requires workers { (1 ≤ workers) × (workers ≤ 64) }
        requires belongs { Belongs net.now start.now past.now }
        ensures board { IfOk result (λ r. (r.0.net ≡ net.now) × (r.0.past ≡ past.now)
            × (r.0.table.workers ≡ workers)) }
        ensures master { IfOk result (λ r. (r.1.table ≡ r.0.table)
            × (r.1.shows ≡ opening net.now start.now)) }
    {
        Board::found::<Brand>(alloc, net, workers, start, past)
    }

    // The origin of the new board is a member of a type, so that it can be chosen where the board
    // is made.
    fn found<C: Founding>(
        alloc: Global,
        net: &Network,
        workers: u32,
        start: &[Payment],
        past: &[Raise],
    ) -> Result<(Board, PaySeat), Mem>
        requires workers { 1 ≤ workers }
        requires belongs { Belongs net.now start.now past.now }
        requires origin { C.origin ≡ record { net = net.now; past = past.now } }
        ensures { IfOk result (AreMade net.now workers start.now past.now) }
    {
        let debts = net.debts() as usize;
        let positions = Positions::of(alloc, net)?;
        let words = opening_words(alloc, net, start, &positions)?;
        let lists = Paid::of_each(alloc, start, workers)?;
        let debtors = debtors_of(alloc, net)?;
        let origin = origin_of::<C>(alloc)?;
        let (table, seat) = Table::of_words(alloc, words.as_slice(), &origin)?;
        let board = Board {
            table,
            debts,
            positions,
            past: past.len(),
            workers,
        };
        let master = PaySeat {
            seat,
            own: Paid::none(alloc),
            lists,
            debtors,
            clock: opening_clock(start, past),
            seats: 0,
            workers,
            worker: 0,
        };
        Ok((board, master))
    }

    /// Ends the board: writes down the payments, in file order. Takes no memory.
    pub fn close(self, master: PaySeat, into: &mut [Payment])
        requires master { IsAt self master }
        requires is_the_master { master.shows.master ≡ true }
        requires banks { HoldsAll master.shows }
        requires into { length into.old ≡ length self.net.debts }
        ensures ends { Ends self.net self.past master.shows into.new }
    {
        let Board {
            table,
            debts: _,
            positions,
            past: _,
            workers: _,
        } = self;
        let PaySeat { seat, .. } = master;
        let closed = table.close_with(seat);
        for i in 0..into.len() {
            let position = positions.of_debt(DebtId(i as u32));
            let word = closed.word(position + 1);
            into[i] = Payment::of_word(word);
        }
        closed.free();
    }

    /// Ends the board as [`close`](Board::close) does, and makes a record of it with the journal of
    /// its raises. Takes no memory.
    pub fn seal(
        self,
        master: PaySeat,
        into: &mut [Payment],
        net: Network,
        journal: Journal,
    ) -> Record
        requires master { IsAt self master }
        requires is_the_master { master.shows.master ≡ true }
        requires banks { HoldsAll master.shows }
        requires into { length into.old ≡ length self.net.debts }
        requires net { net ≡ self.net }
        requires journal { journal.raises ≡ ordered (self.past ++ master.shows.raises) }
        ensures ends { Ends self.net self.past master.shows into.new }
        ensures record_of { result ≡ record {
          net = self.net;
          journal = ordered (self.past ++ master.shows.raises);
          made = length master.shows.raises;
          workers = self.table.workers;
          seats = master.shows.seats;
        } }
    {
        let made = journal.as_slice().len() - self.past;
        let workers = self.workers;
        let seats = master.seats;
        self.close(master, into);
        Record {
            net,
            journal,
            made: made as u64,
            workers,
            seats,
        }
    }
}
