//! Scenarios in sums, each cleared from nothing paid.
//!
//! So they are cleared where what they have in common would save nothing: where a single sweep over
//! the banks clears, and hardly two scenarios leave a bank the same cash.
ghost use Rattle.cascade.specs.MoreCash.{IsOfOtherCash};
ghost use Rattle.cascade.specs.Standings.{standings as standings_of};
ghost use Rattle.clear_core.specs.Clearing.{least};
ghost use Rattle.clear_report.specs.Outcomes.{scenario_sums};
ghost use Rattle.clear_many.specs.Sums.{AreSumsOf};
ghost use Rattle.std.specs.Prelude.{◌≡◌, ◌≤◌, All, IfOk, length, slice_index_or, slice_range};
ghost use Rattle.stress.specs.Outcomes.{tally as tally_of};
ghost use Rattle.stress.specs.Shocks.{IsScenarioOf};
ghost use Rattle.stress.specs.declared.TheConstants.{MAX_SCENARIOS};
ghost use Rattle.stress.specs.declared.scenario.Scenario.{Scenario};

use crate::outcomes::{Sums, counted};
use cascade::{Standing, defaults_by};
use clear_least::least_payments;
use clr_net::{DebtId, Mem, Network};
use shares::{Made, Piecework, THREADS, in_shares};
use std::alloc::Global;
use std::thread::Threads;
use stress::{Scenario, Tally, shock_again};

// Whether the scenarios are cleared sooner one by one than by halves of them: also where no bank has
// any cash. No answer depends on it.
pub(crate) fn is_cheaper(net: &Network, scenarios: &[Scenario]) -> bool {
    net.cash_total() == 0 || (clears_in_one_sweep(net) && are_cut_unlike(scenarios))
}

// Whether each bank owes to such alone as stand after it in the file or owe nothing: then one sweep
// over the banks clears, since each has all its receipts before it pays.
fn clears_in_one_sweep(net: &Network) -> bool {
    for number in 0..net.debts() {
        let debt = net.debt(DebtId(number));
        if debt.creditor.0 <= debt.debtor.0 && net.owed_by(debt.creditor) > 0 {
            return false;
        }
    }
    true
}

// Whether at most one scenario of four cuts the cash as the one before does.
fn are_cut_unlike(scenarios: &[Scenario]) -> bool {
    let mut alike = 0;
    for place in 1..scenarios.len() {
        if scenarios[place].cut == scenarios[place - 1].cut {
            alike += 1;
        }
    }
    alike <= scenarios.len() / 4
}

// What scenarios come to in sums. Each is cleared by itself.
pub(crate) fn one_by_one<R: Threads + Sync>(
    rt: &R,
    alloc: Global,
    net: &Network,
    scenarios: &[Scenario],
) -> Result<Sums, Mem>
    requires scenarios { All (IsScenarioOf net.now) scenarios.now }
    requires scenarios_in_limit { length scenarios.now ≤ MAX_SCENARIOS }
    ensures { IfOk result (AreSumsOf net.now scenarios.now) }
{
    let work = Singly {
        alloc,
        net,
        scenarios,
    };
    let Made { pieces, desk } = in_shares(rt, alloc, &work, scenarios.len(), THREADS)?;
    let Counting { copy: _, tally } = desk;
    Ok(Sums {
        lines: pieces,
        tally,
    })
}

// The scenarios of a network.
#[derive(Drop)]
struct Singly<'a> {
    alloc: Global,
    net: &'a Network,
    scenarios: &'a [Scenario],
}

// The desk at which scenarios are summed up: a copy of the network, and how often each bank falls
// in those that are done.
#[derive(Drop)]
struct Counting {
    copy: Network,
    tally: Tally,
}

impl<'a> Piecework<Vec<u8>, Counting> for Singly<'a> {
    ghost can = { λ w. All (IsScenarioOf w.net.now) w.scenarios.now
        × (length w.scenarios.now ≤ MAX_SCENARIOS) };

    ghost size = { λ w. length w.scenarios.now };

    ghost is_piece = { λ w k text. (d : Scenario)
        → text.items ≡ scenario_sums w.net.now (slice_index_or w.scenarios.now k d) };

    ghost has_done = { λ w low high desk. (low ≤ high) × IsOfOtherCash w.net.now desk.copy
        × (desk.tally ≡ tally_of w.net.now (slice_range w.scenarios.now low high)) };

    fn desk(&self) -> Result<Counting, Mem> {
        Ok(Counting {
            copy: self.net.copy(self.alloc)?,
            tally: Tally::empty(self.alloc, self.net)?,
        })
    }

    fn piece(&self, desk: Counting, place: usize) -> Result<(Vec<u8>, Counting), Mem> {
        let Counting {
            mut copy,
            mut tally,
        } = desk;
        let scenario = &self.scenarios[place];
        shock_again(self.net, scenario, &mut copy);
        let standings = cleared_anew(self.alloc, &copy)?;
        let text = counted(
            self.alloc,
            &copy,
            standings.as_slice(),
            &scenario.name,
            &mut tally,
        )?;
        Ok((text, Counting { copy, tally }))
    }

    fn merged(&self, front: Counting, back: Counting) -> Counting {
        let mut both = front;
        both.tally.add(&back.tally);
        both
    }
}

// How each bank of a network stands under its least payments, which are cleared from nothing paid.
fn cleared_anew(alloc: Global, left: &Network) -> Result<Vec<Standing>, Mem>
    ensures { IfOk result (λ all. all.items ≡ standings_of left.now (least left.now)) }
{
    let payments = least_payments(alloc, left)?;
    defaults_by(alloc, left, &payments)
}
