ghost use Rattle.cascade.specs.Standings.{due as due_of};
ghost use Rattle.clear_core.specs.Clearing.{Clears, estate, least as least_of, receipts};
ghost use Rattle.clear_core.specs.Sums.{HaveSums};
ghost use Rattle.clr_net.specs.Limits.{IsNetwork};
ghost use Rattle.clr_net.specs.Net.{cash_of};
ghost use Rattle.clr_net.specs.declared.TheConstants.{MAX_CASH};
ghost use Rattle.rescue.specs.Rescue.{IsRescue, added as added_net};
ghost use Rattle.rescue.specs.Rescue.{rescue as rescue_of, short_of};
ghost use Rattle.rescue.specs.Searching.{AreLeastWithLess, IsRangeOf, IsSearchAt, IsSearchOf};
ghost use Rattle.std.specs.Prelude.{◌≡◌, ◌+◌, ◌-◌, ◌<◌, ◌≤◌, IfOk, false, length, slice_index_or, true};

use crate::range::{Range, if_any};
use cascade::due;
use clear_core::{Payments, Scratch, estate_of, receipts_of};
use clear_least::least_again;
use clr_net::{Amounts, BankId, Mem, Network};
use std::alloc::Global;

/// The least sum that saves a bank, and what shows that no smaller one does. Both are units.
#[derive(Clone, Copy, Debug, PartialEq, Eq)]
pub struct Rescued {
    /// The least sum with which the bank pays all that it owes: 0 where it does so without.
    pub added: u64,
    /// What the bank lacks with one unit less: 0 where the sum is 0, and else above 0.
    pub short: u64,
}

/// The least sum of cash with which a bank pays all that it owes, on its debts and outside the
/// network, under the least payments that clear then; and what it lacks with one unit less.
///
/// `least` are the least payments that clear the network as it is, a place for each debt, in file
/// order, in units. The bank's cash and the sum together are within the limit on cash. `Mem` for
/// want of memory alone.
///
/// First clears with cash enough at the bank to pay all that it owes: what it then receives is a
/// bound on its receipts, and what it owes beyond them a bound below the sum, which is mostly the
/// sum. Tries that, then sums above it, each about twice as far, and then halves. Each clearing goes
/// on from the payments of the greatest sum that was too small so far, and first visits the bank
/// alone. Copies the network once.
pub fn rescue(alloc: Global, net: &Network, bank: BankId, least: &[u64]) -> Result<Rescued, Mem>
    requires bank { bank.0 < length net.now.banks }
    requires least { least.now ≡ least_of net.now }
    ensures added { IfOk result (λ found. found.added ≡ rescue_of net.now bank.0) }
    ensures rescue { IfOk result (λ found. IsRescue net.now bank.0 found.added) }
    ensures fits { IfOk result (λ found. cash_of net.now bank.0 + found.added ≤ MAX_CASH) }
    ensures short { IfOk result (λ found. found.short ≡ short_of net.now bank.0 found.added) }
    ensures lacking { IfOk result (λ found. 0 < found.added → 0 < found.short) }
{
    let mut search = Search::of(alloc, net)?;
    let found = search.found(alloc, net, bank, least)?;
    Ok(found.sum)
}

/// What searches for sums on one network keep from bank to bank: a copy of the network, on which a
/// bank is given cash, and what it takes to clear.
#[derive(Drop)]
pub struct Search {
    pub(crate) more: Network,
    marks: Vec<bool>,
    scratch: Scratch,
}

// What a search comes to: the least sum that saves a bank, and the least payments with it.
#[derive(Drop)]
pub(crate) struct Found {
    pub sum: Rescued,
    pub payments: Payments,
}

impl Search {
    /// What a search takes. `Mem` for want of memory alone. Costs a copy of the network.
    pub fn of(alloc: Global, net: &Network) -> Result<Search, Mem>
        ensures { IfOk result (IsSearchOf net.now) }
    {
        Ok(Search {
            more: net.copy(alloc)?,
            marks: vec![in alloc; false; net.banks() as usize]?,
            scratch: Scratch::of(alloc, net)?,
        })
    }

    // Searches for the least sum that saves a bank.
    pub(crate) fn found(
        &mut self,
        alloc: Global,
        net: &Network,
        bank: BankId,
        least: &[u64],
    ) -> Result<Found, Mem>
        requires bank { bank.0 < length net.now.banks }
        requires search { IsSearchOf net.now self.old }
        requires least { least.now ≡ least_of net.now }
        ensures search { IsSearchAt net.now bank.0 self.new }
        ensures added { IfOk result (λ found. found.sum.added ≡ rescue_of net.now bank.0) }
        ensures rescue { IfOk result (λ found. IsRescue net.now bank.0 found.sum.added) }
        ensures fits { IfOk result (λ found.
            cash_of net.now bank.0 + found.sum.added ≤ MAX_CASH) }
        ensures short { IfOk result (λ found.
            found.sum.short ≡ short_of net.now bank.0 found.sum.added) }
        ensures lacking { IfOk result (λ found. 0 < found.sum.added → 0 < found.sum.short) }
        ensures paid { IfOk result (λ found.
            found.payments.paid ≡ least_of (added_net net.now bank.0 found.sum.added)) }
        ensures sums { IfOk result (λ found. HaveSums net.now found.payments) }
    {
        prove!(bank.0 < net.banks());
        let mut range = self.begun(alloc, net, bank, least)?;
        while range.low < range.high {
            range = self.narrowed(alloc, net, bank, range)?;
        }
        let sum = Rescued {
            added: range.low,
            short: range.short,
        };
        Ok(Found {
            sum,
            payments: range.enough,
        })
    }

    // Where a search begins: between the bound, below which no sum saves the bank, and what it owes
    // above its cash, which does.
    fn begun(
        &mut self,
        alloc: Global,
        net: &Network,
        bank: BankId,
        least: &[u64],
    ) -> Result<Range, Mem>
        requires network { IsNetwork net.now }
        requires bank { bank.0 < length net.now.banks }
        requires search { IsSearchAt net.now bank.0 self.old }
        requires least { least.now ≡ least_of net.now }
        ensures search { IsSearchAt net.now bank.0 self.new }
        ensures range { IfOk result (IsRangeOf net.now bank.0) }
    {
        let high = due(net, bank).saturating_sub(net.bank(bank).cash);
        let from = Payments::of(alloc, net, Amounts::copy_of(alloc, least)?)?;
        let enough = self.paid_with(alloc, net, bank, high, &from)?;
        let receipts = received(&self.more, bank, enough.paid.as_slice());
        let low = high.saturating_sub(receipts);
        let one_less = low.saturating_sub(1);
        let less = self.paid_with(alloc, net, bank, one_less, &from)?;
        let short = if_any(low, lacks(&self.more, bank, less.paid.as_slice()));
        Ok(Range {
            low,
            high,
            less,
            short,
            enough,
            reach: 0,
        })
    }

    // The range that is left once a sum of it is tried.
    fn narrowed(
        &mut self,
        alloc: Global,
        net: &Network,
        bank: BankId,
        range: Range,
    ) -> Result<Range, Mem>
        requires network { IsNetwork net.now }
        requires bank { bank.0 < length net.now.banks }
        requires search { IsSearchAt net.now bank.0 self.old }
        requires range { IsRangeOf net.now bank.0 range }
        requires more { range.low < range.high }
        ensures search { IsSearchAt net.now bank.0 self.new }
        ensures range { IfOk result (IsRangeOf net.now bank.0) }
        ensures smaller { IfOk result (λ left. left.high + range.low < range.high + left.low) }
    {
        let mut left = range;
        let sum = left.tried();
        let payments = self.paid_with(alloc, net, bank, sum, &left.less)?;
        let lacking = lacks(&self.more, bank, payments.paid.as_slice());
        if lacking == 0 {
            left.high = sum;
            left.enough = payments;
            return Ok(left);
        }
        left.reach = (sum - left.low).saturating_mul(2).saturating_add(1);
        left.low = sum + 1;
        left.less = payments;
        left.short = lacking;
        Ok(left)
    }

    // The least payments with so much more cash at the bank, from those with less of it: at first
    // the bank alone may pay more.
    fn paid_with(
        &mut self,
        alloc: Global,
        net: &Network,
        bank: BankId,
        sum: u64,
        from: &Payments,
    ) -> Result<Payments, Mem>
        requires network { IsNetwork net.now }
        requires bank { bank.0 < length net.now.banks }
        requires search { IsSearchAt net.now bank.0 self.old }
        requires sum { sum ≤ due_of net.now bank.0 - cash_of net.now bank.0 }
        requires from { AreLeastWithLess (added_net net.now bank.0 sum) bank.0 from.now.paid }
        requires sums { HaveSums net.now from.now }
        ensures search { IsSearchAt net.now bank.0 self.new }
        ensures more { self.new.more ≡ added_net net.now bank.0 sum }
        ensures paid { IfOk result (λ all. all.paid ≡ least_of (added_net net.now bank.0 sum)) }
        ensures sums { IfOk result (HaveSums net.now) }
    {
        self.more.set_cash(bank, net.bank(bank).cash + sum);
        prove!(bank.0 < self.more.banks());
        let mut payments = from.copy(alloc)?;
        mark(self.marks.as_mut_slice(), bank);
        least_again(
            &self.more,
            &mut payments,
            self.marks.as_mut_slice(),
            &mut self.scratch,
        );
        Ok(payments)
    }
}

// Marks a bank.
fn mark(marks: &mut [bool], bank: BankId)
    requires { bank.0 < length marks.old }
    ensures { slice_index_or marks.new bank.0 false ≡ true }
{
    marks[bank.0 as usize] = true;
}

// What a bank receives under payments that clear.
fn received(net: &Network, bank: BankId, paid: &[u64]) -> u64
    requires bank { bank.0 < length net.now.banks }
    requires clears { Clears net.now paid.now }
    ensures { result ≡ receipts net.now paid.now bank.0 }
{
    prove!(bank.0 < net.banks());
    receipts_of(net, bank, paid)
}

// What a bank lacks of all that it owes under payments that clear: 0 where it has enough.
fn lacks(net: &Network, bank: BankId, paid: &[u64]) -> u64
    requires bank { bank.0 < length net.now.banks }
    requires clears { Clears net.now paid.now }
    ensures { result ≡ due_of net.now bank.0 - estate net.now paid.now bank.0 }
{
    prove!(bank.0 < net.banks());
    let estate = estate_of(net, bank, paid);
    due(net, bank).saturating_sub(estate)
}
