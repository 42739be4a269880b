//! Stress scenarios, cleared four at once.
ghost use Rattle.cascade.specs.MoreCash.{IsOfOtherCash};
ghost use Rattle.clear_core.specs.Buffers.{AreInLimit};
ghost use Rattle.clear_core.specs.Clearing.{least};
ghost use Rattle.clear_report.specs.Blocks.{scenario_block};
ghost use Rattle.clear_report.specs.Least.{defaults_report};
ghost use Rattle.clear_report.specs.Text.{payments_header, payments_text};
ghost use Rattle.clear_stress.specs.Told.{block_of};
ghost use Rattle.clear_stress.specs.Waiting.{WaitsAs, WaitsAt, waiting_text};
ghost use Rattle.settle.specs.Offices.{AreOffices};
ghost use Rattle.std.specs.Prelude.{◌≡◌, [], All, IfOk, length, map};
ghost use Rattle.stress.specs.Shocks.{IsScenarioOf};

use crate::blocks::{Blocks, UnwrittenBlock};
use bank_worker::Office;
use clear_report::{least_default_text, line_heads, payments_head, scenario_text};
use clr_edge::Gate;
use clr_net::{MAX_BANKS, Mem, Name, Network};
use settle::{Engine, Settled, offices_of, settle_alone};
use shares::{Made, Piecework, THREADS, in_shares};
use std::alloc::Global;
use std::thread::Threads;
use stress::{Scenario, shock_again};

/// Clears the network that each scenario leaves, four at once, and tells of each in file order.
pub fn tell_scenarios<R: Threads + Sync, G: Gate + Sync>(
    rt: &R,
    engine: &Engine<'_, G>,
    net: &Network,
    scenarios: &[Scenario],
) -> Result<Blocks, Mem>
    requires { All (IsScenarioOf net.now) scenarios.now }
    ensures { IfOk result (λ told. map (waiting_text told.heads.items) told.all.items
        ≡ map (block_of net.now) scenarios.now) }
{
    let alloc = engine.alloc;
    let shocks = Shocks {
        engine,
        net,
        scenarios,
    };
    let Made { pieces, desk: _ } = in_shares(rt, alloc, &shocks, scenarios.len(), THREADS)?;
    let heads = line_heads(alloc, net)?;
    Ok(Blocks { heads, all: pieces })
}

// The scenarios of a network, each of which is cleared by workers that go one after another.
#[derive(Drop)]
struct Shocks<'a, G: Gate> {
    engine: &'a Engine<'a, G>,
    net: &'a Network,
    scenarios: &'a [Scenario],
}

// The desk at which scenarios are cleared: a copy of their network, whose cash alone changes, and
// the offices of the workers on it.
#[derive(Drop)]
struct Copied {
    net: Network,
    offices: Vec<Office>,
}

impl<'a, G: Gate> Piecework<UnwrittenBlock, Copied> for Shocks<'a, G> {
    ghost can = { λ w. All (IsScenarioOf w.net.now) w.scenarios.now };

    ghost size = { λ w. length w.scenarios.now };

    ghost is_piece = { λ w k waiting. WaitsAt w.net.now w.scenarios.now k waiting };

    ghost has_done = { λ w low high desk. IsOfOtherCash w.net.now desk.net
        × AreOffices desk.net w.engine.now.plan.workers w.engine.now.plan.workers
        desk.offices.items };

    fn desk(&self) -> Result<Copied, Mem> {
        let net = self.net.copy(self.engine.alloc)?;
        let offices = offices_of(self.engine.alloc, &net, self.engine.plan.workers)?;
        Ok(Copied { net, offices })
    }

    fn piece(&self, desk: Copied, place: usize) -> Result<(UnwrittenBlock, Copied), Mem> {
        let Copied {
            net: mut left,
            mut offices,
        } = desk;
        let scenario = &self.scenarios[place];
        shock_again(self.net, scenario, &mut left);
        let Settled { paid, sealed, .. } = settle_alone(self.engine, left, &mut offices)?;
        let waiting = wait(
            self.engine.alloc,
            sealed.net(),
            &scenario.name,
            paid.as_slice(),
        )?;
        let net = sealed.into_net();
        Ok((waiting, Copied { net, offices }))
    }

    fn merged(&self, front: Copied, _back: Copied) -> Copied {
        front
    }
}

// The block of a scenario of this name, which leaves a network with these least payments.
fn wait(alloc: Global, left: &Network, name: &Name, paid: &[u64]) -> Result<UnwrittenBlock, Mem>
    requires { paid.now ≡ least left.now }
    ensures { IfOk result (λ w. WaitsAs left.now w (scenario_block name.now
        (payments_text left.now (least left.now)) (defaults_report left.now))) }
{
    prove!(left.banks() <= MAX_BANKS);
    let above = block_head(alloc, name)?;
    let below = least_default_text(alloc, left, paid)?;
    Ok(UnwrittenBlock {
        above,
        paid: in_four_bytes(alloc, paid)?,
        below,
    })
}

// What stands above the lines of payments in the block of a scenario of this name.
fn block_head(alloc: Global, name: &Name) -> Result<Vec<u8>, Mem>
    ensures { IfOk result (λ text. text.items ≡ scenario_block name.now payments_header []) }
{
    scenario_text(alloc, name, payments_head(), b"")
}

// Payments, none above what a debt may claim, in half the bytes.
fn in_four_bytes(alloc: Global, paid: &[u64]) -> Result<Vec<u32>, Mem>
    requires { AreInLimit paid.now }
    ensures { IfOk result (λ kept. kept.items ≡ paid.now) }
{
    let mut kept = Vec::with_capacity(alloc, paid.len())?;
    for units in paid {
        kept.push_reserved(*units as u32);
    }
    Ok(kept)
}
