// How far a search for the least sum that saves a bank has come, and which sum is tried next.
ghost use Rattle.std.specs.Prelude.{◌≡◌, ◌==◌, ◌<◌, ◌≤◌, if◌then◌else◌};

use clear_core::Payments;

// How far a search has come: no sum below `low` saves the bank, and `high` does.
#[derive(Drop)]
pub(crate) struct Range {
    pub(crate) low: u64,
    pub(crate) high: u64,
    // The least payments with one unit less than `low`, and what the bank lacks then.
    pub(crate) less: Payments,
    pub(crate) short: u64,
    // The least payments with `high`.
    pub(crate) enough: Payments,
    // How far above `low` the next sum is, if that is not the middle.
    pub(crate) reach: u64,
}

impl Range {
    // The sum that is tried: so much above the least that may do, and the middle at most.
    pub(crate) fn tried(&self) -> u64
        requires { self.now.low < self.now.high }
        ensures from { self.now.low ≤ result }
        ensures below { result < self.now.high }
    {
        self.low + self.reach.min((self.high - self.low) / 2)
    }
}

// Something that counts where a sum is above 0 alone.
pub(crate) fn if_any(sum: u64, units: u64) -> u64
    ensures { result ≡ (if sum == 0 then 0 else units) }
{
    if sum == 0 { 0 } else { units }
}
