//! The laws of visits, for any plain data. A law has nothing to run; its `ensures` is proved.
ghost use Rattle.bank_worker.specs.Told.{AreTold, takes_in};
ghost use Rattle.bank_worker.specs.Views.{WorkerView};
ghost use Rattle.bank_worker.specs.Visits.{IsAllVisits};
ghost use Rattle.std.specs.Prelude.{◌≡◌, ◌+◌, ℕ};

/// Where a worker did nothing but visits to which bells called it, all that was done with its seat
/// is, visit by visit: a take that found the bell of a bank of the worker up, one look at each debt
/// to that bank, its raises, and one ring of each creditor of these. There are as many as were
/// counted, and the journal has their raises and no other. Each visit raised to what the bank's
/// rule gives from its cash and from the sum of what the looks of that very visit found, less what
/// it owes outside.
pub fn acts_are_those_of_visits_by_bells()
    ensures { (n : ℕ) (old new : WorkerView) → IsAllVisits n old new → AreTold old new }
{}

/// Such a worker found as many bells up as visits of it were counted.
pub fn bells_taken_are_as_many_as_visits()
    ensures { (n : ℕ) (old new : WorkerView) → IsAllVisits n old new
        → takes_in new.seat.shows.acts + old.visits ≡ takes_in old.seat.shows.acts + new.visits }
{}
