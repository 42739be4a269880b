//! The second part of a visit: raises of what the bank pays.
ghost use Rattle.bank_worker.specs.Raises.{AreOwedBy, AreTargets, IsRaised};
ghost use Rattle.bank_worker.specs.Views.{IsWorking};
ghost use Rattle.bank_worker.specs.Visits.{AddsRaises};
ghost use Rattle.clr_net.specs.Net.{numbers};
ghost use Rattle.std.specs.Prelude.{◌≡◌, ◌+◌, ◌<◌, ◌≤◌, ◌^◌, ◌++◌, [], ◌∷◌, length};
ghost use Rattle.std.specs.Prelude.{slice_index, sum, sum_by};

use clear_core::{Journal, Raise};
use clr_net::DebtId;
use pay_words::{Board, PaySeat};

// Raises each of these debts that is to be paid more than before, in order, and adds each raise to
// the journal. Answers by how many units payments rose.
pub(crate) fn raise_all(
    board: &Board,
    seat: &mut PaySeat,
    debts: &[DebtId],
    targets: &[u64],
    journal: &mut Journal,
) -> u64
    requires working { IsWorking board.now seat.old }
    requires debts { AreOwedBy seat.old.shows (numbers debts.now) }
    requires places { length targets.now ≡ length debts.now }
    requires targets { AreTargets seat.old.shows (numbers debts.now) targets.now }
    requires few { sum targets.now < 2 ^ 63 }
    requires room { length debts.now ≤ journal.old.spare }
    requires noted { journal.old.raises ≡ seat.old.shows.raises }
    ensures table { seat.new.table ≡ seat.old.table }
    ensures raised { IsRaised seat.old.shows seat.new.shows (numbers debts.now) targets.now
        (length debts.now) }
    ensures noted { journal.new.raises ≡ seat.new.shows.raises }
    ensures units { sum_by (slice_index seat.old.shows.paid) (numbers debts.now) + result
        ≡ sum targets.now }
    ensures more { AddsRaises result seat.old.shows seat.new.shows }
{
    let mut units = 0;
    for (place, id) in debts.iter().enumerate() {
        let to = targets[place];
        let before = seat.pays(*id);
        if before < to {
            let stamp = board.raise(seat, *id, to);
            let raise = Raise {
                stamp,
                debt: *id,
                to,
            };
            note(journal, raise);
            units += to - before;
        }
    }
    units
}

// Adds a raise at the end of a journal that has room for it.
fn note(journal: &mut Journal, raise: Raise)
    requires room { 0 < journal.old.spare }
    ensures added { journal.new.raises ≡ journal.old.raises ++ raise ∷ [] }
    ensures room { journal.old.spare ≤ journal.new.spare + 1 }
{
    let Ok(()) = journal.push(raise) else {
        unreachable!()
    };
}
