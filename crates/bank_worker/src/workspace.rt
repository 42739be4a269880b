//! What an office has beside its desks, and keeps from visit to visit.
ghost use Rattle.bank_desk.specs.Desks.{target};
ghost use Rattle.bank_worker.specs.Rings.{AreMarksBelow, AreMarksUpTo, creditors_of};
ghost use Rattle.clear_core.specs.Buffers.{HasRoom};
ghost use Rattle.clr_net.specs.Net.{creditor_of};
ghost use Rattle.clr_net.specs.declared.TheConstants.{MAX_OWED};
ghost use Rattle.std.specs.Prelude.{◌≡◌, ◌<◌, ◌≤◌, IfOk, length, vec_capacity, vec_len};

use bank_desk::Desk;
use clear_core::{Raise, longest_row};
use clr_net::{DebtId, MAX_BANKS, Mem, Network};
use std::alloc::Global;

// The workspace of an office.
#[derive(Drop)]
pub(crate) struct Workspace {
    // The creditor of each debt, in file order: in two bytes, since they are read in any order.
    pub(crate) creditors: Vec<u16>,
    // For each bank the number of the last visit that rang it, or 0. Visits are counted over all
    // seats.
    pub(crate) marks: Vec<u64>,
    // How many visits there were: no mark is of a later one.
    pub(crate) counted: u64,
    // What the bank that is visited should pay on each of its debts.
    pub(crate) targets: Vec<u64>,
    // Room for the raises of the next seat.
    pub(crate) raises: Vec<Raise>,
}

impl Workspace {
    // The workspace of a worker. Costs a walk over all debts.
    pub(crate) fn of(alloc: Global, net: &Network) -> Result<Workspace, Mem>
        ensures creditors { IfOk result (λ w. w.creditors.items ≡ creditors_of net.now) }
        ensures marks { IfOk result (λ w. AreMarksUpTo w.counted w.marks.items) }
        ensures a_mark_each { IfOk result
            (λ w. length w.marks.items ≡ length net.now.banks) }
        ensures room { IfOk result (λ w. HasRoom net.now (vec_capacity w.targets)) }
    {
        Ok(Workspace {
            creditors: creditors(alloc, net)?,
            marks: no_marks(alloc, net.banks() as usize)?,
            counted: 0,
            targets: Vec::with_capacity(alloc, longest_row(net))?,
            raises: Vec::new(alloc),
        })
    }

    // Counts a visit, of which no mark is yet.
    pub(crate) fn count_visit(&mut self)
        requires { AreMarksUpTo self.old.counted self.old.marks.items }
        ensures marks { AreMarksBelow self.new.counted self.new.marks.items }
        ensures as_many { length self.new.marks.items ≡ length self.old.marks.items }
        ensures creditors { self.new.creditors ≡ self.old.creditors }
        ensures targets { self.new.targets ≡ self.old.targets }
    {
        self.counted = next_number(&mut self.marks, self.counted);
    }
}

// The creditor of each debt, in file order.
fn creditors(alloc: Global, net: &Network) -> Result<Vec<u16>, Mem>
    ensures { IfOk result (λ creditors. creditors.items ≡ creditors_of net.now) }
{
    let mut creditors = Vec::with_capacity(alloc, net.debts() as usize)?;
    for number in 0..net.debts() {
        creditors.push_reserved(creditor(net, DebtId(number)));
    }
    Ok(creditors)
}

// The creditor of a debt: the number of a bank is below that of all banks, which two bytes hold.
fn creditor(net: &Network, debt: DebtId) -> u16
    requires { debt.0 < length net.now.debts }
    ensures { result ≡ creditor_of net.now debt.0 }
{
    prove!(net.banks() <= MAX_BANKS);
    net.debt(debt).creditor.0 as u16
}

// As many marks of no visit.
#[tactic(auto, using(crate::proofs::Basics::unmarked))]
fn no_marks(alloc: Global, banks: usize) -> Result<Vec<u64>, Mem>
    ensures marks { IfOk result (λ marks. AreMarksUpTo 0 marks.items) }
    ensures as_many { IfOk result (λ marks. length marks.items ≡ banks) }
{
    Ok(vec![in alloc; 0; banks]?)
}

// The number of a visit more, of which no mark is yet. Only where the numbers end are all marks
// taken away.
#[tactic(auto, using(crate::proofs::Basics::below_first))]
fn next_number(marks: &mut [u64], counted: u64) -> u64
    requires { AreMarksUpTo counted marks.old }
    ensures below { AreMarksBelow result marks.new }
    ensures as_many { length marks.new ≡ length marks.old }
{
    if counted < u64::MAX {
        return counted + 1;
    }
    marks.fill(0);
    1
}

// Lays out what the desk's bank should pay on each of its debts when it receives so many units.
pub(crate) fn lay_out(desk: &Desk, received: u64, targets: &mut Vec<u64>)
    requires received { received ≤ MAX_OWED }
    requires room { length desk.now.debts_out ≤ vec_capacity targets.old }
    ensures targets { targets.new.items ≡ target desk.now received }
    ensures room { vec_capacity targets.old ≤ vec_capacity targets.new }
{
    set_places(targets, desk.debts_out().len());
    desk.target(received, targets.as_mut_slice());
}

// Gives the list so many places, for which it has the room, and writes as few of them as it can: a
// visit writes them all.
fn set_places(targets: &mut Vec<u64>, places: usize)
    requires { places ≤ vec_capacity targets.old }
    ensures places { vec_len targets.new ≡ places }
    ensures room { vec_capacity targets.old ≤ vec_capacity targets.new }
{
    let Ok(()) = targets.resize(places, 0) else {
        unreachable!()
    };
}
