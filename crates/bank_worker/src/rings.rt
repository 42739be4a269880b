//! The third part of a visit: rings of the creditors that are paid more.
ghost use Rattle.bank_worker.specs.Rings.{AreMarksBelow, AreMarksUpTo, IsRungAll, OweRings};
ghost use Rattle.bank_worker.specs.Rings.{creditors_of};
ghost use Rattle.pay_words.specs.Views.{IsAt};
ghost use Rattle.clr_net.specs.Limits.{IsNetwork};
ghost use Rattle.std.specs.Prelude.{◌≡◌, length};

use clear_core::Raise;
use clr_net::BankId;
use pay_words::{Board, PaySeat};

// Rings the creditor of each raised debt once, in order. A creditor that was rung is marked with
// the number of the visit.
pub(crate) fn ring_all(
    board: &Board,
    seat: &mut PaySeat,
    raises: &[Raise],
    creditors: &[u16],
    marks: &mut [u64],
    visit: u64,
)
    requires seat { IsAt board.now seat.old }
    requires network { IsNetwork board.now.net }
    requires creditors { creditors.now ≡ creditors_of board.now.net }
    requires marks { (length marks.old ≡ length board.now.net.banks)
        × AreMarksBelow visit marks.old }
    requires raised { OweRings seat.old.shows raises.now }
    ensures table { seat.new.table ≡ seat.old.table }
    ensures rung { IsRungAll seat.old.shows seat.new.shows raises.now }
    ensures marks { AreMarksUpTo visit marks.new }
{
    for raise in raises {
        let creditor = creditors[raise.debt.0 as usize] as u32;
        if marks[creditor as usize] != visit {
            board.ring(seat, BankId(creditor));
            marks[creditor as usize] = visit;
        }
    }
}
