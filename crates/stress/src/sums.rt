//! What a scenario comes to, in sums over all banks.
ghost use Rattle.cascade.specs.Standings.{standings as standings_of};
ghost use Rattle.clear_core.specs.Clearing.{least};
ghost use Rattle.std.specs.Prelude.{◌≡◌, ◌+◌};
ghost use Rattle.stress.specs.Outcomes.{sums};

use cascade::{Health, Standing};
use clr_net::Network;

/// What a network comes to under payments that clear, in sums over its banks: units but for the
/// last two.
#[derive(Clone, Copy, Debug, PartialEq, Eq)]
pub struct Outcome {
    /// All cash.
    pub cash: u64,
    /// What is paid on all debts.
    pub paid: u64,
    /// What is paid outside the network.
    pub outside_paid: u64,
    /// What is left to the banks.
    pub equity: u64,
    /// How many banks are in default.
    pub defaults: u64,
    /// How many of them are by their own fundamentals.
    pub fundamental: u64,
}

/// What a network comes to under its least payments, which is what a scenario does that left it.
///
/// `standings` are the standings of its banks under these payments, in file order. No unit is made
/// or lost: all cash is paid outside or left to a bank. Takes no memory.
pub fn outcome_of(net: &Network, standings: &[Standing]) -> Outcome
    requires { standings.now ≡ standings_of net.now (least net.now) }
    ensures sums { result ≡ sums net.now (least net.now) }
    ensures adds_up { result.cash ≡ result.outside_paid + result.equity }
{
    prove!(net.banks() <= clr_net::MAX_BANKS);
    let mut all = Outcome {
        cash: net.cash_total(),
        paid: 0,
        outside_paid: 0,
        equity: 0,
        defaults: 0,
        fundamental: 0,
    };
    for standing in standings {
        all.paid += standing.paid;
        all.outside_paid += standing.outside_paid;
        all.equity += standing.equity;
        all.defaults += u64::from(standing.health != Health::Sound);
        all.fundamental += u64::from(standing.health == Health::Fundamental);
    }
    all
}
