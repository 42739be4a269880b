ghost use Rattle.clr_net.specs.Limits.{IsNetwork};
ghost use Rattle.clr_net.specs.Net.{creditor_of, debtor_of};
ghost use Rattle.compress.specs.Compression.{IsLive};
ghost use Rattle.compress.specs.Walk.{IsKept, IsUnderWay, end_of, numbers, steps_left, stops};
ghost use Rattle.std.specs.Prelude.{◌≡◌, ◌+◌, ◌<◌, ◌≤◌, ℕ, length, slice_index, sum, sum_by};

use crate::mark::Mark;
use crate::step::Step;
use crate::walk::Walk;
use clr_net::{DebtId, Network};

/// Lowers the debts of a cycle, all by the least claim of them, and takes the walk back to the
/// cycle's first bank.
///
/// The cycle runs from the place of the walk to its end, and by the closing debt back there.
pub(crate) fn cancel(
    net: &Network,
    class: u8,
    claims: &mut [u64],
    walk: &mut Walk,
    place: usize,
    closing: DebtId,
)
    requires network { IsNetwork net.now }
    requires claims { length claims.old ≡ length net.now.debts }
    requires under_way { IsUnderWay net.now class claims.old walk.old }
    requires closing { IsLive net.now claims.old class closing.0 }
    requires link { creditor_of net.now closing.0
        ≡ end_of net.now walk.old.start.0 (numbers walk.old.steps.items) }
    requires place { place < length (numbers walk.old.steps.items) + 1 }
    requires closes { slice_index
        (stops net.now walk.old.start.0 (numbers walk.old.steps.items)) place
        ≡ debtor_of net.now closing.0 }
    ensures under_way { IsUnderWay net.now class claims.new walk.new }
    ensures start { walk.new.start ≡ walk.old.start }
    ensures kept { IsKept net.now class claims.old claims.new walk.old.marks.items
        walk.new.marks.items }
    ensures less { sum claims.new + sum_by steps_left walk.new.marks.items
        < sum claims.old + sum_by steps_left walk.old.marks.items }
{
    let least = least_claim(walk.steps.as_slice(), place, closing, claims);
    claims[closing.0 as usize] -= least;
    while walk.steps.len() > place {
        let last = walk.steps.len() - 1;
        let step = walk.steps[last];
        walk.steps.truncate(last);
        claims[step.debt.0 as usize] -= least;
        walk.marks[step.debtor.0 as usize] = Mark::New;
    }
}

// The least claim of a closing debt and of the steps of a walk from a place on.
fn least_claim(steps: &[Step], place: usize, closing: DebtId, claims: &[u64]) -> u64
    requires closing { closing.0 < length claims.now }
    requires debts { (k : ℕ) → k < length steps.now
        → slice_index (numbers steps.now) k < length claims.now }
    requires closing_live { 0 < slice_index claims.now closing.0 }
    requires live { (k : ℕ) → k < length steps.now
        → 0 < slice_index claims.now (slice_index (numbers steps.now) k) }
    ensures positive { 0 < result }
    ensures closing { result ≤ slice_index claims.now closing.0 }
    ensures least { (k : ℕ) → place ≤ k → k < length steps.now
        → result ≤ slice_index claims.now (slice_index (numbers steps.now) k) }
{
    let mut least = claims[closing.0 as usize];
    for k in place..steps.len() {
        least = least.min(claims[steps[k].debt.0 as usize]);
    }
    least
}
