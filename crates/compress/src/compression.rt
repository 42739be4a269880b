ghost use Rattle.clr_net.specs.Limits.{IsNetwork};
ghost use Rattle.clr_net.specs.declared.TheConstants.{MAX_CLASS as LAST_CLASS, MAX_OWED};
ghost use Rattle.clr_net.specs.Claims.{all_claims};
ghost use Rattle.compress.specs.Compression.{Compression, HasNoCycle};
ghost use Rattle.compress.specs.Progress.{IsCompressedTo, IsWrittenAt};
ghost use Rattle.compress.specs.Walk.{IsSizedFor};
ghost use Rattle.std.specs.Prelude.{◌≡◌, ◌+◌, ◌*◌, ◌≤◌, ℕ, [], IfOk, OnOk, length, sum};

use crate::classes::cancel_cycles;
use crate::walk::Walk;
use clr_net::{Amounts, DebtId, MAX_CLASS, Mem, Network};
use std::alloc::Global;

/// What is left of the claims of a network once all cycles are cancelled.
#[derive(Drop)]
pub struct Compressed {
    /// The claim of each debt, in file order, in units.
    pub claims: Amounts,
    /// A number for each class and bank, at the place `(class - 1) * banks + bank`: 0 where no debt
    /// of the class above 0 is owed to the bank, and else one more than the greatest number of a
    /// debtor of such a debt. The numbers rise along each debt above 0, so no cycle is left.
    pub ranks: Amounts,
    /// The units taken off in all.
    pub cancelled: u64,
}

/// Lowers debts of one class that run round a cycle of banks together, until no cycle is left
/// (conservative compression: D'Errico and Roukny 2021).
///
/// In each class what a bank is owed less what it owes stays as it was. Which cycle is cancelled
/// first is free, and another order may cancel more. `Mem` for want of memory alone. Costs a walk
/// over the debts for each class, and for each debt that is brought to 0 a walk round its cycle.
pub fn compress(alloc: Global, net: &Network) -> Result<Compressed, Mem>
    ensures compression { IfOk result
        (λ made. Compression net.now made.claims made.ranks made.cancelled) }
    ensures acyclic { IfOk result (λ made. (class : ℕ) → HasNoCycle net.now made.claims class) }
{
    let banks = net.banks() as usize;
    let mut claims = Amounts::zeros(alloc, net.debts() as usize)?;
    let mut ranks = Amounts::zeros(alloc, MAX_CLASS as usize * banks)?;
    let cancelled = compress_into(alloc, net, claims.as_mut_slice(), ranks.as_mut_slice())?;
    Ok(Compressed {
        claims,
        ranks,
        cancelled,
    })
}

// Writes the claims that are left and the numbers of all banks, and answers how many units were
// taken off. Takes the memory that a walk needs.
fn compress_into(
    alloc: Global,
    net: &Network,
    claims: &mut [u64],
    ranks: &mut [u64],
) -> Result<u64, Mem>
    requires network { IsNetwork net.now }
    requires claims { length claims.old ≡ length net.now.debts }
    requires ranks { length ranks.old ≡ LAST_CLASS * length net.now.banks }
    ensures { IfOk result (λ cancelled. Compression net.now claims.new ranks.new cancelled) }
{
    let mut walk = Walk::of(alloc, net.banks() as usize)?;
    compress_by(net, claims, ranks, &mut walk)
}

// The same, by a walk that has not begun.
fn compress_by(
    net: &Network,
    claims: &mut [u64],
    ranks: &mut [u64],
    walk: &mut Walk,
) -> Result<u64, Mem>
    requires network { IsNetwork net.now }
    requires claims { length claims.old ≡ length net.now.debts }
    requires ranks { length ranks.old ≡ LAST_CLASS * length net.now.banks }
    requires sizes { IsSizedFor net.now walk.old }
    requires empty { walk.old.steps.items ≡ [] }
    ensures { IfOk result (λ cancelled. Compression net.now claims.new ranks.new cancelled) }
{
    copy_claims(net, claims);
    cancel_all(net, claims, ranks, walk)?;
    let left = total(claims);
    Ok(net.owed() - left)
}

// Writes the claim of each debt.
fn copy_claims(net: &Network, claims: &mut [u64])
    requires { length claims.old ≡ length net.now.debts }
    ensures { claims.new ≡ all_claims net.now }
{
    for number in 0..net.debts() {
        claims[number as usize] = net.debt(DebtId(number)).claim;
    }
}

// The sum of some amounts.
fn total(amounts: &[u64]) -> u64
    requires { sum amounts.now ≤ MAX_OWED }
    ensures { result ≡ sum amounts.now }
{
    let mut total = 0;
    for amount in amounts {
        total += *amount;
    }
    total
}

// Cancels the cycles of each class in turn.
fn cancel_all(
    net: &Network,
    claims: &mut [u64],
    ranks: &mut [u64],
    walk: &mut Walk,
) -> Result<(), Mem>
    requires network { IsNetwork net.now }
    requires claims { claims.old ≡ all_claims net.now }
    requires ranks { length ranks.old ≡ LAST_CLASS * length net.now.banks }
    requires sizes { IsSizedFor net.now walk.old }
    requires empty { walk.old.steps.items ≡ [] }
    ensures { OnOk result (IsCompressedTo net.now (LAST_CLASS + 1) claims.new ranks.new) }
{
    let banks = net.banks() as usize;
    for class in 1..MAX_CLASS + 1 {
        cancel_cycles(net, class, claims, walk)?;
        write_at(ranks, (class as usize - 1) * banks, walk.ranks.as_slice());
    }
    Ok(())
}

// Writes numbers into a list, from a place on.
fn write_at(ranks: &mut [u64], place: usize, numbers: &[u64])
    requires { place + length numbers.now ≤ length ranks.old }
    ensures { IsWrittenAt place numbers.now ranks.old ranks.new }
{
    for bank in 0..numbers.len() {
        ranks[place + bank] = numbers[bank];
    }
}
