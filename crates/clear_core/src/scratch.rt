ghost use Rattle.clear_core.specs.Buffers.{AreInLimit, HasRoom};
ghost use Rattle.clear_core.specs.Clearing.{division, division_of, pay};
ghost use Rattle.clear_core.specs.Raised.{IsRaised};
ghost use Rattle.clear_core.specs.Sums.{AreSums, AreSumsBut, HaveSums};
ghost use Rattle.clr_net.specs.Limits.{IsNetwork};
ghost use Rattle.clr_net.specs.Net.{debtor_of, place_in_row, row as row_of};
ghost use Rattle.clr_net.specs.declared.TheConstants.{MAX_CLAIM, MAX_DEBTS};
ghost use Rattle.std.specs.Bool.{OnFalse, OnTrue};
ghost use Rattle.std.specs.Prelude.{◌≡◌, ◌≢◌, ◌*◌, ◌<◌, ◌≤◌, ◌↔◌, ℕ, IfOk, IsTrue, length, map};
ghost use Rattle.std.specs.Prelude.{slice_index, sum};

use crate::payments::{Payments, Sums};
use crate::receipts::{receipts_of, spend};
use crate::row_buffer::RowBuffer;
use clr_net::{BankId, Mem, Network};
use std::alloc::Global;
use std::marker::Model;

/// Buffers in which what one bank divides is divided, so that no division takes memory.
///
/// Contracts see the room: how many debts the buffers can hold.
#[derive(Drop)]
pub struct Scratch {
    row: RowBuffer,
}

impl Model for Scratch {
    ghost use Rattle.std.specs.Prelude.{ℕ};

    ghost Value = { ℕ };

    ghost view = { λ s. s.row.room };
}

impl Scratch {
    /// Room for the longest row of the network. `Mem` for want of memory alone.
    pub fn of(alloc: Global, net: &Network) -> Result<Scratch, Mem>
        ensures { IfOk result (HasRoom net.now) }
    {
        Ok(Scratch {
            row: RowBuffer::with_room(alloc, longest_row(net))?,
        })
    }

    /// A bank pays on the debts of its row what its rule gives from what it has received by `paid`:
    /// writes that into `next`, and nothing else.
    ///
    /// Both have a place for each debt, in file order, in units. Takes no memory.
    pub fn pay_row(&mut self, net: &Network, bank: BankId, paid: &[u64], next: &mut [u64])
        requires network { IsNetwork net.now }
        requires bank { bank.0 < length net.now.banks }
        requires paid { length paid.now ≡ length net.now.debts }
        requires paid_in_limit { AreInLimit paid.now }
        requires next { length next.old ≡ length net.now.debts }
        requires room { HasRoom net.now self.old }
        ensures in_row { (x : ℕ) → x < length net.now.debts → debtor_of net.now x ≡ bank.0
            → slice_index next.new x ≡ slice_index (pay net.now paid.now) x }
        ensures other_rows_kept { (x : ℕ) → debtor_of net.now x ≢ bank.0
            → slice_index next.new x ≡ slice_index next.old x }
        ensures room { self.new ≡ self.old }
    {
        let receipts = receipts_of(net, bank, paid);
        self.divide_row(net, bank, spend(net, bank, receipts), next);
    }

    /// A bank pays on the debts of its row what its rule gives of so many units: writes that into
    /// `next`, and nothing else.
    ///
    /// `next` has a place for each debt, in file order, in units. Takes no memory.
    pub fn divide_row(&mut self, net: &Network, bank: BankId, units: u64, next: &mut [u64])
        requires network { IsNetwork net.now }
        requires bank { bank.0 < length net.now.banks }
        requires next { length next.old ≡ length net.now.debts }
        requires room { HasRoom net.now self.old }
        ensures in_row { (x : ℕ) → x < length net.now.debts → debtor_of net.now x ≡ bank.0
            → slice_index next.new x
            ≡ slice_index (division_of net.now bank.0 units) (place_in_row net.now x) }
        ensures other_rows_kept { (x : ℕ) → debtor_of net.now x ≢ bank.0
            → slice_index next.new x ≡ slice_index next.old x }
        ensures room { self.new ≡ self.old }
    {
        self.row.divide(net, bank, units);
        let awards = self.row.awards();
        for (place, id) in net.row(bank).iter().enumerate() {
            next[id.0 as usize] = awards[place];
        }
    }

    /// A bank pays on the debts of its row what its rule gives of so many units, which is no less
    /// than it has paid. Whoever it pays more is marked; answers whether it pays anyone more.
    ///
    /// `payments` have their sums, and keep them. `marks` has a place for each bank. Takes no
    /// memory, and divides nothing where the bank pays in all what it has paid.
    pub fn raise_row(
        &mut self,
        net: &Network,
        bank: BankId,
        units: u64,
        payments: &mut Payments,
        marks: &mut [bool],
    ) -> bool
        requires network { IsNetwork net.now }
        requires bank { bank.0 < length net.now.banks }
        requires paid { length payments.old.paid ≡ length net.now.debts }
        requires paid_in_limit { AreInLimit payments.old.paid }
        requires sums { HaveSums net.now payments.old }
        requires marks { length marks.old ≡ length net.now.banks }
        requires rises { (m : ℕ) → m < length (row_of net.now bank.0)
            → slice_index payments.old.paid (slice_index (row_of net.now bank.0) m)
            ≤ slice_index (division_of net.now bank.0 units) m }
        requires room { HasRoom net.now self.old }
        ensures raised { IsRaised net.now bank.0 (division_of net.now bank.0 units)
            payments.old.paid payments.new.paid marks.old marks.new }
        ensures sums { HaveSums net.now payments.new }
        ensures rises_if_true { OnTrue result (sum payments.old.paid < sum payments.new.paid) }
        ensures same_if_false { OnFalse result (payments.new.paid ≡ payments.old.paid) }
        ensures room { self.new ≡ self.old }
    {
        let in_all = units.min(net.owed_by(bank));
        if payments.sums[bank.0 as usize].paid == in_all {
            return false;
        }
        self.row.divide(net, bank, units);
        raise(
            net,
            bank,
            self.row.awards(),
            payments.paid.as_mut_slice(),
            payments.sums.as_mut_slice(),
            marks,
        );
        payments.sums[bank.0 as usize].paid = in_all;
        true
    }

    /// What a bank's rule gives the debt in one place of its row of so many units received.
    pub(crate) fn award_at(
        &mut self,
        net: &Network,
        bank: BankId,
        receipts: u64,
        place: usize,
    ) -> u64
        requires network { IsNetwork net.now }
        requires bank { bank.0 < length net.now.banks }
        requires receipts { receipts ≤ MAX_DEBTS * MAX_CLAIM }
        requires room { HasRoom net.now self.old }
        requires place { place < length (row_of net.now bank.0) }
        ensures award { result ≡ slice_index (division net.now bank.0 receipts) place }
        ensures room { self.new ≡ self.old }
    {
        self.row.divide(net, bank, spend(net, bank, receipts));
        self.row.awards()[place]
    }

    /// Whether what is paid on the row of a bank is what its rule gives, when the bank receives so
    /// many units.
    pub(crate) fn gives(&mut self, net: &Network, bank: BankId, receipts: u64, paid: &[u64]) -> bool
        requires network { IsNetwork net.now }
        requires bank { bank.0 < length net.now.banks }
        requires receipts { receipts ≤ MAX_DEBTS * MAX_CLAIM }
        requires room { HasRoom net.now self.old }
        requires over { length paid.now ≡ length net.now.debts }
        ensures same { IsTrue result
            ↔ (map (slice_index paid.now) (row_of net.now bank.0)
            ≡ division net.now bank.0 receipts) }
        ensures room { self.new ≡ self.old }
    {
        self.row.divide(net, bank, spend(net, bank, receipts));
        are_paid(net, bank, paid, self.row.awards())
    }
}

/// The length of the longest row of a network: the least room that holds the row of each bank.
///
/// Costs a walk over all banks. Takes no memory.
pub fn longest_row(net: &Network) -> usize
    ensures room { HasRoom net.now result }
    ensures no_more { (room : ℕ) → HasRoom net.now room → result ≤ room }
{
    let mut longest = 0;
    for number in 0..net.banks() {
        longest = longest.max(net.row(BankId(number)).len());
    }
    longest
}

// Pays the awards on the debts of a bank, where they are more than is paid: each creditor receives
// so much more, and is marked where that is anything. What the bank pays in all is left as it was.
fn raise(
    net: &Network,
    bank: BankId,
    awards: &[u64],
    paid: &mut [u64],
    sums: &mut [Sums],
    marks: &mut [bool],
)
    requires network { IsNetwork net.now }
    requires bank { bank.0 < length net.now.banks }
    requires paid { length paid.old ≡ length net.now.debts }
    requires paid_in_limit { AreInLimit paid.old }
    requires sums { AreSums net.now paid.old sums.old }
    requires marks { length marks.old ≡ length net.now.banks }
    requires places { length awards.now ≡ length (row_of net.now bank.0) }
    requires awards_in_limit { AreInLimit awards.now }
    requires rises { (m : ℕ) → m < length (row_of net.now bank.0)
        → slice_index paid.old (slice_index (row_of net.now bank.0) m) ≤ slice_index awards.now m }
    ensures raised { IsRaised net.now bank.0 awards.now paid.old paid.new marks.old marks.new }
    ensures sums { AreSumsBut net.now bank.0 paid.new sums.new }
{
    // Without a branch: nobody can foretell which debts are paid more.
    for (place, id) in net.row(bank).iter().enumerate() {
        let award = awards[place];
        let creditor = net.debt(*id).creditor.0 as usize;
        let more = award - paid[id.0 as usize];
        paid[id.0 as usize] = award;
        sums[creditor].received += more;
        marks[creditor] = marks[creditor] | (more > 0);
    }
}

// Whether the payments on the row of a bank are the awards, in file order.
fn are_paid(net: &Network, bank: BankId, paid: &[u64], awards: &[u64]) -> bool
    requires bank { bank.0 < length net.now.banks }
    requires over { length paid.now ≡ length net.now.debts }
    requires places { length awards.now ≡ length (row_of net.now bank.0) }
    ensures { IsTrue result ↔ (map (slice_index paid.now) (row_of net.now bank.0) ≡ awards.now) }
{
    for (place, id) in net.row(bank).iter().enumerate() {
        if paid[id.0 as usize] != awards[place] {
            return false;
        }
    }
    true
}
