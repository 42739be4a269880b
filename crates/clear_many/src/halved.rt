//! Scenarios in sums, each cleared from what it has in common with others.
ghost use Rattle.cascade.specs.Standings.{standings as standings_of};
ghost use Rattle.clear_core.specs.Clearing.{least};
ghost use Rattle.clear_report.specs.Outcomes.{scenario_sums};
ghost use Rattle.clear_many.specs.Shocked.{IsDescentByRows, cash_rows};
ghost use Rattle.clear_many.specs.Sums.{AreSumsOf};
ghost use Rattle.clr_net.specs.Limits.{IsNetwork};
ghost use Rattle.std.specs.Prelude.{◌≡◌, ◌<◌, ◌≤◌, All, IfOk, OnOk, length};
ghost use Rattle.std.specs.Prelude.{slice_index_or, slice_range};
ghost use Rattle.stress.specs.Outcomes.{tally as tally_of};
ghost use Rattle.stress.specs.Shocks.{IsScenarioOf, shocked};
ghost use Rattle.stress.specs.declared.TheConstants.{MAX_SCENARIOS};
ghost use Rattle.stress.specs.declared.scenario.Scenario.{Scenario};

use crate::outcomes::{Sums, counted};
use crate::shocks::cash_left;
use cascade::Standing;
use clr_net::{MAX_BANKS, Mem, Network};
use descent::{Descent, Table};
use shares::{Made, Piecework, THREADS, in_shares};
use std::alloc::Global;
use std::thread::Threads;
use stress::{Scenario, Tally};

// What scenarios come to in sums. The clearing of each goes on from what is common to many.
pub(crate) fn by_halves<R: Threads + Sync>(
    rt: &R,
    alloc: Global,
    net: &Network,
    scenarios: &[Scenario],
) -> Result<Sums, Mem>
    requires scenarios { All (IsScenarioOf net.now) scenarios.now }
    requires scenarios_in_limit { length scenarios.now ≤ MAX_SCENARIOS }
    ensures { IfOk result (AreSumsOf net.now scenarios.now) }
{
    prove!(net.banks() <= MAX_BANKS);
    let table = cash_left(alloc, net, scenarios)?;
    let work = Halved {
        alloc,
        net,
        scenarios,
        table: &table,
    };
    let Made { pieces, desk } = in_shares(rt, alloc, &work, scenarios.len(), THREADS)?;
    let Counting { descent: _, tally } = desk;
    Ok(Sums {
        lines: pieces,
        tally,
    })
}

// The scenarios of a network, with the cash that each leaves.
#[derive(Drop)]
struct Halved<'a> {
    alloc: Global,
    net: &'a Network,
    scenarios: &'a [Scenario],
    table: &'a Table,
}

impl<'a> Halved<'a> {
    // How each bank stands in a scenario, under the least payments that clear then. The clearing
    // goes on from what is common to many scenarios.
    fn standings_in(&self, descent: &mut Descent, place: usize) -> Result<Vec<Standing>, Mem>
        requires network { IsNetwork self.now.net.now }
        requires scenarios { All (IsScenarioOf self.now.net.now) self.now.scenarios.now }
        requires scenarios_in_limit { length self.now.scenarios.now ≤ MAX_SCENARIOS }
        requires table { self.now.table.now.rows.items
            ≡ cash_rows self.now.net.now self.now.scenarios.now }
        requires place { place < length self.now.scenarios.now }
        requires descent { IsDescentByRows self.now.net.now self.now.table.now.rows.items
            descent.old }
        ensures descent { IsDescentByRows self.now.net.now self.now.table.now.rows.items
            descent.new }
        ensures cleared { (d : Scenario) → OnOk result (descent.new.laid
            ≡ shocked self.now.net.now (slice_index_or self.now.scenarios.now place d)) }
        ensures all { (d : Scenario) → let left = shocked self.now.net.now
            (slice_index_or self.now.scenarios.now place d)
            in IfOk result (λ all. all.items ≡ standings_of left (least left)) }
    {
        descent.standings_at(self.alloc, self.net, self.table, place as u32)
    }
}

// The desk at which scenarios are summed up: a descent through halves of them, and how often each
// bank falls in those that are done.
#[derive(Drop)]
struct Counting {
    descent: Descent,
    tally: Tally,
}

impl<'a> Piecework<Vec<u8>, Counting> for Halved<'a> {
    ghost can = { λ w. All (IsScenarioOf w.net.now) w.scenarios.now
        × (length w.scenarios.now ≤ MAX_SCENARIOS)
        × (w.table.now.rows.items ≡ cash_rows w.net.now w.scenarios.now)
        × IsNetwork w.net.now };

    ghost size = { λ w. length w.scenarios.now };

    ghost is_piece = { λ w k text. (d : Scenario)
        → text.items ≡ scenario_sums w.net.now (slice_index_or w.scenarios.now k d) };

    ghost has_done = { λ w low high desk. (low ≤ high)
        × IsDescentByRows w.net.now w.table.now.rows.items desk.descent
        × (desk.tally ≡ tally_of w.net.now (slice_range w.scenarios.now low high)) };

    fn desk(&self) -> Result<Counting, Mem> {
        Ok(Counting {
            descent: Descent::of(self.alloc, self.net)?,
            tally: Tally::empty(self.alloc, self.net)?,
        })
    }

    fn piece(&self, desk: Counting, place: usize) -> Result<(Vec<u8>, Counting), Mem> {
        let Counting {
            mut descent,
            mut tally,
        } = desk;
        let standings = self.standings_in(&mut descent, place)?;
        let name = &self.scenarios[place].name;
        let left = descent.cleared();
        let text = counted(self.alloc, left, standings.as_slice(), name, &mut tally)?;
        Ok((text, Counting { descent, tally }))
    }

    fn merged(&self, front: Counting, back: Counting) -> Counting {
        let mut both = front;
        both.tally.add(&back.tally);
        both
    }
}
