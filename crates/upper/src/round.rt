ghost use Rattle.clear_core.specs.Buffers.{AreInLimit, HasRoom};
ghost use Rattle.clear_least.specs.Paying.{pay_by};
ghost use Rattle.clr_net.specs.Amounts.{IsAtMost};
ghost use Rattle.clr_net.specs.Limits.{IsNetwork};
ghost use Rattle.clr_net.specs.Net.{debtor_of};
ghost use Rattle.clr_net.specs.declared.TheConstants.{MAX_OWED};
ghost use Rattle.std.specs.Prelude.{◌≡◌, ◌≢◌, ◌+◌, ◌<◌, ◌≤◌, ℕ, length, slice_index, sum};
ghost use Rattle.upper.specs.Descent.{AreCurrent, AreNoted};

use crate::falls::Falls;
use clear_core::{Scratch, receipts_of};
use clear_least::Spending;
use clr_net::{BankId, Network};

// All banks pay at once what their rules give of what they divide of their receipts by `paid`; what
// each pays is written into `next`. Only the banks whose receipts fell in the last round divide
// anew: what the others pay stands there already.
pub(crate) fn pay_round<S: Spending>(
    net: &Network,
    spending: &S,
    last: &Falls,
    paid: &[u64],
    next: &mut [u64],
    scratch: &mut Scratch,
)
    requires network { IsNetwork net.now }
    requires banks { length last.now ≡ length net.now.banks }
    requires paid { length paid.now ≡ length net.now.debts }
    requires paid_in_limit { AreInLimit paid.now }
    requires next { length next.old ≡ length net.now.debts }
    requires current { AreCurrent net.now (S.spends spending.now net.now) last.now paid.now
        next.old }
    requires room { HasRoom net.now scratch.old }
    ensures next { next.new ≡ pay_by net.now (S.spends spending.now net.now) paid.now }
    ensures room { scratch.new ≡ scratch.old }
{
    for bank in last.banks() {
        pay_bank(net, spending, *bank, paid, next, scratch);
    }
}

// A bank pays on the debts of its row what its rule gives of what it divides of its receipts.
fn pay_bank<S: Spending>(
    net: &Network,
    spending: &S,
    bank: BankId,
    paid: &[u64],
    next: &mut [u64],
    scratch: &mut Scratch,
)
    requires network { IsNetwork net.now }
    requires bank { bank.0 < length net.now.banks }
    requires paid { length paid.now ≡ length net.now.debts }
    requires paid_in_limit { AreInLimit paid.now }
    requires next { length next.old ≡ length net.now.debts }
    requires room { HasRoom net.now scratch.old }
    ensures in_row { (x : ℕ) → x < length net.now.debts → debtor_of net.now x ≡ bank.0
        → slice_index next.new x
        ≡ slice_index (pay_by net.now (S.spends spending.now net.now) paid.now) x }
    ensures others { (x : ℕ) → debtor_of net.now x ≢ bank.0
        → slice_index next.new x ≡ slice_index next.old x }
    ensures room { scratch.new ≡ scratch.old }
{
    let receipts = receipts_of(net, bank, paid);
    scratch.divide_row(net, bank, spending.spend(net, bank, receipts), next);
}

// Brings `paid` down to `next`, and notes by how much the receipts of each bank fall by that. What
// the banks pay whose receipts did not fall in the last round is the same in both.
pub(crate) fn take_over(
    net: &Network,
    last: &Falls,
    next: &[u64],
    paid: &mut [u64],
    falls: &mut Falls,
)
    requires network { IsNetwork net.now }
    requires banks { length last.now ≡ length net.now.banks }
    requires as_many { length falls.old ≡ length net.now.banks }
    requires next { length next.now ≡ length net.now.debts }
    requires paid { length paid.old ≡ length net.now.debts }
    requires lower { IsAtMost next.now paid.old }
    requires units { (i : ℕ) → slice_index falls.old i + sum paid.old ≤ MAX_OWED }
    requires others { (x : ℕ) → x < length net.now.debts
        → slice_index last.now (debtor_of net.now x) ≡ 0
        → slice_index paid.old x ≡ slice_index next.now x }
    ensures paid { paid.new ≡ next.now }
    ensures falls { AreNoted net.now paid.old paid.new falls.old falls.new }
{
    for bank in last.banks() {
        take_row(net, *bank, next, paid, falls);
    }
}

// Brings what a bank pays on its row down to `next`, and notes what its creditors lose by that.
fn take_row(net: &Network, bank: BankId, next: &[u64], paid: &mut [u64], falls: &mut Falls)
    requires network { IsNetwork net.now }
    requires bank { bank.0 < length net.now.banks }
    requires as_many { length falls.old ≡ length net.now.banks }
    requires next { length next.now ≡ length net.now.debts }
    requires paid { length paid.old ≡ length net.now.debts }
    requires lower { IsAtMost next.now paid.old }
    requires units { (i : ℕ) → slice_index falls.old i + sum paid.old ≤ MAX_OWED }
    ensures in_row { (x : ℕ) → x < length net.now.debts → debtor_of net.now x ≡ bank.0
        → slice_index paid.new x ≡ slice_index next.now x }
    ensures others { (x : ℕ) → debtor_of net.now x ≢ bank.0
        → slice_index paid.new x ≡ slice_index paid.old x }
    ensures lower { IsAtMost next.now paid.new }
    ensures falls { AreNoted net.now paid.old paid.new falls.old falls.new }
{
    for id in net.row(bank) {
        let place = id.0 as usize;
        let lost = paid[place] - next[place];
        paid[place] = next[place];
        falls.add(net.debt(*id).creditor, lost);
    }
}
