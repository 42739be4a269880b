//! The office of a worker: what it keeps from seat to seat, and a visit to one of its banks.
ghost use Rattle.bank_desk.specs.Desks.{with_cash_in};
ghost use Rattle.bank_worker.specs.Offices.{IsOfficeFor, banks_of_worker};
ghost use Rattle.bank_worker.specs.Staff.{IsStaffed};
ghost use Rattle.bank_worker.specs.Views.{desk_at};
ghost use Rattle.bank_worker.specs.Visits.{IsSeatVisited};
ghost use Rattle.clr_net.specs.declared.TheConstants.{MAX_OWED};
ghost use Rattle.pay_words.specs.Views.{IsAt};
ghost use Rattle.std.specs.Prelude.{◌≡◌, ◌<◌, ◌≤◌, [], All, IfOk, length, map};

use crate::desks::Desks;
use crate::looks::look_at_all;
use crate::raises::raise_all;
use crate::rings::ring_all;
use crate::workspace::{Workspace, lay_out};
use clear_core::Journal;
use clr_net::{MAX_BANKS, MAX_OWED, Mem, Network};
use pay_words::{Board, PaySeat};
use std::alloc::Global;
use std::marker::Model;
use std::mem;

// A journal of at most so many raises leaves its room to the next seat.
const FEW_RAISES: usize = 64;

/// What a worker has beside its seat, and keeps from round to round: a desk for each of its banks
/// in file order, the creditor of each debt, a mark for each bank, and room for what the bank that
/// is visited should pay.
#[derive(Drop)]
pub struct Office {
    desks: Desks,
    worker: u32,
    // It stays in its place in memory, so that little is moved where an office is taken up or left.
    workspace: Box<Workspace>,
}

impl Model for Office {
    ghost use Rattle.bank_worker.specs.Offices.{OfficeView};
    ghost use Rattle.bank_worker.specs.Rings.{AreMarksUpTo};
    ghost use Rattle.std.specs.Prelude.{vec_capacity, vec_len};

    ghost Value = { OfficeView };

    ghost view = { λ o. record {
      desks = o.desks;
      worker = o.worker;
      creditors = o.workspace.value.creditors.items;
      marks = vec_len o.workspace.value.marks;
      room = vec_capacity o.workspace.value.targets;
    } };

    ghost invariant = { λ o. AreMarksUpTo o.workspace.value.counted o.workspace.value.marks.items };
}

impl Office {
    /// The office of a worker among so many. Costs a walk over all banks and debts.
    pub fn of(alloc: Global, net: &Network, worker: u32, workers: u32) -> Result<Office, Mem>
        requires workers { 1 ≤ workers }
        ensures office { IfOk result
            (λ o. IsOfficeFor net.now (banks_of_worker net.now workers worker) o) }
        ensures worker { IfOk result (λ o. o.worker ≡ worker) }
    {
        // The network is within its limits, as the number of its banks tells.
        prove!(net.banks() <= MAX_BANKS);
        let desks = Desks::of(alloc, net, worker, workers)?;
        let workspace = Workspace::of(alloc, net)?;
        let workspace = Box::new(alloc, workspace)?;
        Ok(Office {
            desks,
            worker,
            workspace,
        })
    }

    /// Gives each desk the cash that its bank has in a network, and changes nothing else: an office
    /// then serves a network that differs from its own in the cash of its banks alone. Takes no
    /// memory, and costs a walk over the desks.
    pub fn set_cash(&mut self, net: &Network)
        requires { All (λ d. d.bank < length net.now.banks) self.old.desks }
        ensures { self.new ≡ record self.old {
          desks = map (with_cash_in net.now) self.old.desks;
        } }
    {
        self.desks.set_cash(net);
    }

    /// Keeps the room that a short journal took, for the raises of the next seat.
    pub fn keep(&mut self, journal: Journal)
        ensures { self.new ≡ self.old }
    {
        let raises = journal.into_raises();
        if raises.len() <= FEW_RAISES {
            self.workspace.raises = raises;
        }
    }

    // A journal of no raise, for another seat. Takes no memory.
    pub(crate) fn begin(&mut self, alloc: Global) -> Journal
        ensures journal { result.raises ≡ [] }
        ensures same { self.new ≡ self.old }
    {
        let mut raises = mem::replace(&mut self.workspace.raises, Vec::new(alloc));
        raises.clear();
        Journal::of(raises)
    }

    // The desks of its worker.
    pub(crate) fn desks(&self) -> &Desks
        ensures { result.now ≡ self.now.desks }
    {
        &self.desks
    }

    // The number of its worker.
    pub(crate) fn worker(&self) -> u32
        ensures { result ≡ self.now.worker }
    {
        self.worker
    }

    // The creditor of each debt.
    pub(crate) fn creditors(&self) -> &[u16]
        ensures { result.now ≡ self.now.creditors }
    {
        self.workspace.creditors.as_slice()
    }

    // Visits the bank of a desk with a seat whose raises have room in the journal. Answers by how
    // many units the bank pays more.
    pub(crate) fn visit(
        &mut self,
        board: &Board,
        seat: &mut PaySeat,
        journal: &mut Journal,
        place: usize,
    ) -> u64
        requires seat { IsAt board.now seat.old }
        requires staffed { IsStaffed seat.old.shows journal.old.raises self.old }
        requires place { place < length self.old.desks }
        requires spare { length (desk_at self.old.desks place).debts_out ≤ journal.old.spare }
        ensures table { seat.new.table ≡ seat.old.table }
        ensures visited { IsSeatVisited (desk_at self.old.desks place) result seat.old.shows
            seat.new.shows }
        ensures few { result ≤ MAX_OWED }
        ensures staffed { IsStaffed seat.new.shows journal.new.raises self.new }
        ensures desks { self.new.desks ≡ self.old.desks }
        ensures worker { self.new.worker ≡ self.old.worker }
    {
        let desk = self.desks.at(place);
        let space = &mut *self.workspace;
        space.count_visit();
        // The clock tells that what the seat shows is sound: here before the looks, and then after.
        prove!(seat.clock() <= MAX_OWED);
        let first = board.first(desk.bank());
        let received = look_at_all(board, seat, desk.debts_in(), first);
        prove!(seat.clock() <= MAX_OWED);
        lay_out(desk, received, &mut space.targets);
        let debts = desk.debts_out();
        let from = journal.as_slice().len();
        let units = raise_all(board, seat, debts, space.targets.as_slice(), journal);
        let (_, made) = journal.as_slice().split_at(from);
        let creditors = space.creditors.as_slice();
        ring_all(
            board,
            seat,
            made,
            creditors,
            &mut space.marks,
            space.counted,
        );
        units
    }
}
