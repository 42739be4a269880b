//! Scenarios in sums, a share of them to each thread.
ghost use Rattle.cascade.specs.Standings.{standings as standings_of};
ghost use Rattle.clear_core.specs.Clearing.{least};
ghost use Rattle.clear_report.specs.Outcomes.{falls_text as falls_text_of, outcomes_text};
ghost use Rattle.clear_report.specs.Outcomes.{outcome_line as outcome_line_of};
ghost use Rattle.clear_report.specs.Outcomes.{outcomes_header as header};
ghost use Rattle.clear_report.specs.Words.{one_above_other};
ghost use Rattle.clear_many.specs.Sums.{AreSumsOf};
ghost use Rattle.clear_many.specs.Texts.{text_of};
ghost use Rattle.std.specs.Prelude.{◌≡◌, ◌++◌, ◌≤◌, All, IfOk, OnOk, length};
ghost use Rattle.stress.specs.Outcomes.{AreWithin, added, sums as sums_by, tally_of_one};
ghost use Rattle.stress.specs.Shocks.{IsScenarioOf};
ghost use Rattle.stress.specs.declared.TheConstants.{MAX_SCENARIOS};

use crate::halved::by_halves;
use crate::singly::{is_cheaper, one_by_one};
use cascade::Standing;
use clear_report::{falls_text, outcome_line, outcomes_header};
use clr_net::{Mem, Name, Network};
use std::alloc::Global;
use std::thread::Threads;
use stress::{Falls, Scenario, Tally, outcome_of};

/// The text of what each scenario comes to in sums, and of how often each bank falls in them, in
/// pieces. `Mem` for want of memory alone.
///
/// Costs a clearing for each scenario, which goes on from one with the least cash of twice as many,
/// and a walk over the debts. Each thread has one copy of the network, and a list over the debts
/// for each halving of the scenarios, and keeps of a scenario its line alone. Where nothing would
/// be saved so, each scenario is cleared from nothing paid.
pub fn tell_outcomes<R: Threads + Sync>(
    rt: &R,
    alloc: Global,
    net: &Network,
    scenarios: &[Scenario],
) -> Result<Vec<Vec<u8>>, Mem>
    requires scenarios { All (IsScenarioOf net.now) scenarios.now }
    requires scenarios_in_limit { length scenarios.now ≤ MAX_SCENARIOS }
    ensures { IfOk result (λ all. text_of all.items ≡ outcomes_text net.now scenarios.now) }
{
    let Sums { lines, tally } = sums_of(rt, alloc, net, scenarios)?;
    summed_up(alloc, net, lines, tally.as_slice())
}

// What the scenarios come to in sums, cleared as is cheaper.
fn sums_of<R: Threads + Sync>(
    rt: &R,
    alloc: Global,
    net: &Network,
    scenarios: &[Scenario],
) -> Result<Sums, Mem>
    requires scenarios { All (IsScenarioOf net.now) scenarios.now }
    requires scenarios_in_limit { length scenarios.now ≤ MAX_SCENARIOS }
    ensures { IfOk result (AreSumsOf net.now scenarios.now) }
{
    if is_cheaper(net, scenarios) {
        return one_by_one(rt, alloc, net, scenarios);
    }
    by_halves(rt, alloc, net, scenarios)
}

// What scenarios come to in sums: a line for each in file order, and how often each bank falls.
#[derive(Drop)]
pub(crate) struct Sums {
    pub(crate) lines: Vec<Vec<u8>>,
    pub(crate) tally: Tally,
}

// The text of these lines, and of how often each bank falls, in pieces.
fn summed_up(
    alloc: Global,
    net: &Network,
    lines: Vec<Vec<u8>>,
    falls: &[Falls],
) -> Result<Vec<Vec<u8>>, Mem>
    requires { length falls.now ≡ length net.now.banks }
    ensures { IfOk result (λ all. text_of all.items ≡ one_above_other
        (header ++ text_of lines.items) (falls_text_of net.now falls.now)) }
{
    let mut lines = lines;
    let mut all = Vec::with_capacity(alloc, lines.len())?;
    all.push(outcomes_header(alloc)?)?;
    all.append(&mut lines)?;
    all.push(vec![in alloc; b'\n']?)?;
    all.push(falls_text(alloc, net, falls)?)?;
    Ok(all)
}

// The line of a scenario of this name, which left this network. How its banks stand is counted.
pub(crate) fn counted(
    alloc: Global,
    left: &Network,
    standings: &[Standing],
    name: &Name,
    tally: &mut Tally,
) -> Result<Vec<u8>, Mem>
    requires standings { standings.now ≡ standings_of left.now (least left.now) }
    requires over { length tally.old ≡ length left.now.banks }
    requires fits { AreWithin MAX_SCENARIOS tally.old }
    ensures text { IfOk result (λ text.
        text.items ≡ outcome_line_of name.now (sums_by left.now (least left.now))) }
    ensures tally { OnOk result (tally.new
        ≡ added tally.old (tally_of_one (standings_of left.now (least left.now)))) }
{
    tally.note(standings);
    outcome_line(alloc, name, &outcome_of(left, standings))
}
