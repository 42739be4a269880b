ghost use Rattle.clear_core.specs.Buffers.{HasRoom};
ghost use Rattle.clear_core.specs.Clearing.{IsLeast, IsLeastBy, IsOnWayBy, NeverFalls, least, least_by as least_paid, pay, spend};
ghost use Rattle.clear_core.specs.Sums.{HaveSums};
ghost use Rattle.clear_least.specs.Sweeps.{IsQuietBy, IsSwept};
ghost use Rattle.clr_net.specs.Limits.{IsNetwork};
ghost use Rattle.std.specs.Bool.{OnFalse, OnTrue};
ghost use Rattle.std.specs.Prelude.{◌≡◌, ◌<◌, IfOk, length, sum};

use crate::spending::{Spending, WithoutCosts};
use clear_core::{Payments, Scratch};
use clr_net::{Amounts, BankId, Mem, Network};
use std::alloc::Global;

/// The least payments that clear the network: one for each debt, in file order, in units. Costs what
/// [`least_by`] does, and takes one list over the debts more. `Err` is want of memory.
pub fn central(alloc: Global, net: &Network) -> Result<Amounts, Mem>
    ensures payments { IfOk result (λ paid. paid ≡ least net.now) }
    ensures least { IfOk result (λ paid. IsLeast net.now paid) }
{
    Ok(least_payments(alloc, net)?.paid)
}

/// The payments that [`central`] gives, with what each bank receives and pays by them.
pub fn least_payments(alloc: Global, net: &Network) -> Result<Payments, Mem>
    ensures payments { IfOk result (λ payments. payments.paid ≡ least net.now) }
    ensures sums { IfOk result (HaveSums net.now) }
{
    let nothing = Payments::none(alloc, net)?;
    paid_up(alloc, net, &WithoutCosts, nothing)
}

/// The least payments that clear where each bank divides what `spending` says, from payments that
/// are on the way there, as nothing paid is: at or below the least, and such that all banks would
/// pay no less. No bank may divide less as its receipts grow.
///
/// Takes memory at the start alone, two lists over the banks and the buffers of one division, and
/// `Err` is want of it. Costs two walks over the debts and a visit of each bank at first, and then
/// for each payment that rises at most one visit of its creditor, which goes over what that bank owes
/// if it pays more than before; and for each sweep a look at each bank's mark.
pub fn least_by<S: Spending>(
    alloc: Global,
    net: &Network,
    spending: &S,
    paid: Amounts,
) -> Result<Amounts, Mem>
    requires never_falls { NeverFalls (S.spends spending.now net.now) }
    requires way { IsOnWayBy net.now (S.spends spending.now net.now) paid }
    ensures payments { IfOk result (λ least. least ≡ least_paid net.now (S.spends spending.now net.now)) }
    ensures least { IfOk result (IsLeastBy net.now (S.spends spending.now net.now)) }
{
    prove!(paid.as_slice().len() == net.debts() as usize);
    let from = Payments::of(alloc, net, paid)?;
    Ok(paid_up(alloc, net, spending, from)?.paid)
}

// The same, from payments that have their sums.
fn paid_up<S: Spending>(
    alloc: Global,
    net: &Network,
    spending: &S,
    mut payments: Payments,
) -> Result<Payments, Mem>
    requires never_falls { NeverFalls (S.spends spending.now net.now) }
    requires way { IsOnWayBy net.now (S.spends spending.now net.now) payments.paid }
    requires sums { HaveSums net.now payments }
    ensures payments { IfOk result (λ all. all.paid ≡ least_paid net.now (S.spends spending.now net.now)) }
    ensures sums { IfOk result (HaveSums net.now) }
{
    let mut marks = vec![in alloc; true; net.banks() as usize]?;
    let mut scratch = Scratch::of(alloc, net)?;
    repeat(
        net,
        spending,
        &mut payments,
        marks.as_mut_slice(),
        &mut scratch,
    );
    Ok(payments)
}

/// Makes payments that are on the way to the least that clear those, where it is known which banks
/// may pay more: each bank that has no mark would pay on its debts just what it has paid.
///
/// The payments have their sums, and `marks` has a place for each bank. Costs what [`least_by`] does
/// after its walks, but that only the marked banks are visited at first. Takes no memory.
pub fn least_again(
    net: &Network,
    payments: &mut Payments,
    marks: &mut [bool],
    scratch: &mut Scratch,
)
    requires network { IsNetwork net.now }
    requires swept { IsSwept net.now (spend net.now) payments.old.paid marks.old }
    requires sums { HaveSums net.now payments.old }
    requires room { HasRoom net.now scratch.old }
    ensures payments { payments.new.paid ≡ least net.now }
    ensures sums { HaveSums net.now payments.new }
    ensures room { scratch.new ≡ scratch.old }
{
    repeat(net, &WithoutCosts, payments, marks, scratch);
}

// Sweeps over the banks up to the first sweep in which none pays more.
fn repeat<S: Spending>(
    net: &Network,
    spending: &S,
    payments: &mut Payments,
    marks: &mut [bool],
    scratch: &mut Scratch,
)
    requires network { IsNetwork net.now }
    requires swept { IsSwept net.now (S.spends spending.now net.now) payments.old.paid marks.old }
    requires sums { HaveSums net.now payments.old }
    requires room { HasRoom net.now scratch.old }
    ensures payments { payments.new.paid ≡ least_paid net.now (S.spends spending.now net.now) }
    ensures sums { HaveSums net.now payments.new }
    ensures room { scratch.new ≡ scratch.old }
{
    while sweep(net, spending, payments, marks, scratch) {}
}

// Each marked bank pays anew, one after another, and loses its mark; whoever it pays more is
// marked. Answers whether any paid more. Takes no memory.
fn sweep<S: Spending>(
    net: &Network,
    spending: &S,
    payments: &mut Payments,
    marks: &mut [bool],
    scratch: &mut Scratch,
) -> bool
    requires swept { IsSwept net.now (S.spends spending.now net.now) payments.old.paid marks.old }
    requires sums { HaveSums net.now payments.old }
    requires room { HasRoom net.now scratch.old }
    ensures swept { IsSwept net.now (S.spends spending.now net.now) payments.new.paid marks.new }
    ensures sums { HaveSums net.now payments.new }
    ensures more { OnTrue result (sum payments.old.paid < sum payments.new.paid) }
    ensures done { OnFalse result (payments.new.paid ≡ least_paid net.now (S.spends spending.now net.now)) }
    ensures room { scratch.new ≡ scratch.old }
{
    let mut any = false;
    for number in 0..net.banks() {
        if marks[number as usize]
            && pay_bank(net, spending, BankId(number), payments, marks, scratch)
        {
            any = true;
        }
    }
    any
}

// A bank pays on the debts of its row what its rule gives from what it divides of its receipts.
// Answers whether it pays more than before.
fn pay_bank<S: Spending>(
    net: &Network,
    spending: &S,
    bank: BankId,
    payments: &mut Payments,
    marks: &mut [bool],
    scratch: &mut Scratch,
) -> bool
    requires network { IsNetwork net.now }
    requires bank { bank.0 < length net.now.banks }
    requires swept { IsSwept net.now (S.spends spending.now net.now) payments.old.paid marks.old }
    requires sums { HaveSums net.now payments.old }
    requires room { HasRoom net.now scratch.old }
    ensures swept { IsSwept net.now (S.spends spending.now net.now) payments.new.paid marks.new }
    ensures sums { HaveSums net.now payments.new }
    ensures more { OnTrue result (sum payments.old.paid < sum payments.new.paid) }
    ensures same { OnFalse result (payments.new.paid ≡ payments.old.paid) }
    ensures quiet { OnFalse result
        (IsQuietBy net.now (S.spends spending.now net.now) payments.old.paid bank.0) }
    ensures room { scratch.new ≡ scratch.old }
{
    marks[bank.0 as usize] = false;
    let received = payments.sums[bank.0 as usize].received;
    let units = spending.spend(net, bank, received);
    scratch.raise_row(net, bank, units, payments, marks)
}
