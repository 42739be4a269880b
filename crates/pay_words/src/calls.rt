//! What is done with a seat on a board: looks, raises, rings and takes.
ghost use Rattle.clear_core.specs.Raised.{is_marked};
ghost use Rattle.clr_net.specs.Net.{creditor_of};
ghost use Rattle.pay_words.specs.Holding.{HoldsAll, holds};
ghost use Rattle.pay_words.specs.Paying.{MayRaise, looked, raised};
ghost use Rattle.pay_words.specs.Positions.{first_position, position_of};
ghost use Rattle.pay_words.specs.Ringing.{HasSeenAll, HasSeenFloor, IsCalm, OwesNoRing, OwesRing};
ghost use Rattle.pay_words.specs.Ringing.{rung, took};
ghost use Rattle.pay_words.specs.Steps.{LookTells, TakeTells, after_take};
ghost use Rattle.pay_words.specs.Views.{IsAt};
ghost use Rattle.std.specs.Prelude.{◌≡◌, ◌+◌, ◌<◌, if◌then◌else◌, false, length, true};

use crate::board::Board;
use crate::payment::Payment;
use crate::rule::{Glance, Look, Ring, Rise, Take};
use crate::seat::PaySeat;
use clr_net::{BankId, DebtId};

impl Board {
    /// Looks at what is paid on a debt to a bank of the seat, by one atomic load. Takes no memory.
    ///
    /// The caller says where the debt's word stands: those of the debts to a bank, in file order,
    /// stand side by side from [`first`](Board::first) on. A look finds no less than the seat saw
    /// before or knows to be paid, and no more than the least clearing payment; and of a debt that a
    /// bank of the seat owes, what the seat pays.
    pub fn look_at(&self, seat: &mut PaySeat, debt: DebtId, position: usize) -> Payment
        requires seat { IsAt self.now seat.old }
        requires not_the_master { seat.old.shows.master ≡ false }
        requires debt { debt.0 < length self.now.net.debts }
        requires position { position ≡ position_of self.now.net debt.0 }
        requires creditor { holds seat.old.shows (creditor_of self.now.net debt.0) ≡ true }
        ensures table { seat.new.table ≡ seat.old.table }
        ensures seen { seat.new.shows ≡ looked seat.old.shows debt.0 result }
        ensures tells { LookTells seat.old.shows debt.0 result }
    {
        let word = self.table.shared.load::<Look>(&mut seat.seat, position + 1);
        let found = Payment::of_word(word);
        seat.clock = seat.clock.max(found.stamp);
        found
    }

    /// The position at which the words of the debts to a bank begin: that of the first of them, in
    /// file order. No atomic step, and takes no memory.
    pub fn first(&self, bank: BankId) -> usize
        requires { bank.0 < length self.now.net.banks }
        ensures { result ≡ first_position self.now.net bank.0 }
    {
        self.positions.first(bank)
    }

    /// Raises what is paid on a debt of a bank of the seat to so many units, by one atomic store,
    /// and answers the stamp of the raise. Takes no memory.
    pub fn raise(&self, seat: &mut PaySeat, debt: DebtId, to: u64) -> u64
        requires seat { IsAt self.now seat.old }
        requires may_raise { MayRaise self.now.net seat.old.shows debt.0 to }
        ensures stamp { result ≡ seat.old.shows.clock + 1 }
        ensures table { seat.new.table ≡ seat.old.table }
        ensures raised { seat.new.shows ≡ raised seat.old.shows debt.0 to }
    {
        let stamp = seat.clock + 1;
        self.table.shared.store::<Rise>(
            &mut seat.seat,
            self.positions.of_debt(debt) + 1,
            Payment { value: to, stamp }.word(),
        );
        seat.clock = stamp;
        seat.own.set(debt.0, to);
        stamp
    }

    /// Rings the bell of a bank to which a debt of the seat owes a ring, by one atomic store. Takes
    /// no memory.
    pub fn ring(&self, seat: &mut PaySeat, bank: BankId)
        requires seat { IsAt self.now seat.old }
        requires owes { OwesRing seat.old.shows bank.0 }
        ensures table { seat.new.table ≡ seat.old.table }
        ensures rung { seat.new.shows ≡ rung seat.old.shows bank.0 }
    {
        let bell = self.bell(bank);
        self.table.shared.store::<Ring>(&mut seat.seat, bell, 1);
    }

    /// Takes the bell of a bank of the seat down, by one atomic load and where that finds it up one
    /// atomic swap, and answers whether it was up. Takes no memory.
    ///
    /// A bell that was never taken is up. One that is down tells that the bank, where no debt to it
    /// is pending, has seen of each debt what the seat knows to be paid; and if the seat holds all
    /// banks and owes no ring, all that is paid.
    pub fn take(&self, seat: &mut PaySeat, bank: BankId) -> bool
        requires seat { IsAt self.now seat.old }
        requires held { holds seat.old.shows bank.0 ≡ true }
        ensures table { seat.new.table ≡ seat.old.table }
        ensures taken { seat.new.shows
            ≡ (if result then took seat.old.shows bank.0 else seat.old.shows) }
        ensures up_if_fresh { is_marked seat.old.shows.fresh bank.0 ≡ true → result ≡ true }
        ensures seen_floor { result ≡ false → IsCalm seat.old.shows bank.0
            → HasSeenFloor seat.old.shows bank.0 }
        ensures seen_all { result ≡ false → IsCalm seat.old.shows bank.0
            → HoldsAll seat.old.shows → OwesNoRing seat.old.shows
            → HasSeenAll seat.old.shows bank.0 }
    {
        if self.read_bell(seat, bank) == 0 {
            return false;
        }
        self.lower(seat, bank) != 0
    }

    // What stands at the bell of a bank of the seat, by one atomic load. It takes nothing: whatever
    // the answer, the seat shows what it showed.
    fn read_bell(&self, seat: &mut PaySeat, bank: BankId) -> u64
        requires seat { IsAt self.now seat.old }
        requires held { holds seat.old.shows bank.0 ≡ true }
        ensures table { seat.new.table ≡ seat.old.table }
        ensures same { seat.new.shows ≡ seat.old.shows }
        ensures tells { TakeTells seat.old.shows bank.0 result }
    {
        let bell = self.bell(bank);
        self.table.shared.load::<Glance>(&mut seat.seat, bell)
    }

    // Takes the bell of a bank of the seat down, by one atomic swap, and answers what stood there.
    fn lower(&self, seat: &mut PaySeat, bank: BankId) -> u64
        requires seat { IsAt self.now seat.old }
        requires held { holds seat.old.shows bank.0 ≡ true }
        ensures table { seat.new.table ≡ seat.old.table }
        ensures taken { seat.new.shows ≡ after_take seat.old.shows bank.0 result }
        ensures tells { TakeTells seat.old.shows bank.0 result }
    {
        let bell = self.bell(bank);
        self.table.shared.swap::<Take>(&mut seat.seat, bell, 0)
    }

    /// Whether the bell of a bank was up, by one atomic load. Promises nothing: the answer may be
    /// out of date at once. Takes no memory.
    pub fn is_up(&self, bank: BankId) -> bool
        requires bank { bank.0 < length self.now.net.banks }
    {
        let bell = self.bell(bank);
        self.table.shared.peek(bell) != 0
    }

    // The place of the bell of a bank among the words.
    fn bell(&self, bank: BankId) -> usize
        ensures { result ≡ length self.now.net.debts + 1 + bank.0 }
    {
        self.debts + 1 + bank.0 as usize
    }
}
