//! The work on a job, by what its task works on and by the task.
ghost use Rattle.clear_load.specs.Loading.{Stops, on_shelf};
ghost use Rattle.clear_load.specs.Reading.{alone};
ghost use Rattle.clear_load.specs.Sources.{has_files, source_of};
ghost use Rattle.clear_load.specs.declared.source.Source.{Source};
ghost use Rattle.clear_top.specs.Ending.{Works};
ghost use Rattle.clear_top.specs.Meaning.{ComesTo, plan_of};
ghost use Rattle.clear_words.specs.Limits.{IsJob};
ghost use Rattle.std.specs.Prelude.{◌≡◌, ◌⊎◌, ◌≤◌, All, IfErr, IfOk, false, length};
ghost use Rattle.stress.specs.Shocks.{IsScenarioOf};
ghost use Rattle.stress.specs.declared.TheConstants.{MAX_SCENARIOS};

use crate::alone::{bound_with_costs, cancel_cycles, check, clear_centrally, clear_with_costs};
use crate::judge::judge;
use crate::outcome::Outcome;
use crate::reports::outcome_of;
use crate::saving::save;
use clear_load::{
    LoadFault, Source, load_bank, load_generated, load_journal, load_network, load_scenarios,
    source_of,
};
use clear_many::{tell_breaking, tell_impact, tell_outcomes, tell_rescues};
use clear_stress::tell_scenarios;
use clear_words::{Job, Task};
use clr_edge::{Gate, Shelf, Text};
use clr_net::{Mem, Network};
use net_csv::print_banks_2;
use settle::{Engine, Plan, settle_owned};
use std::alloc::Global;
use std::thread::Threads;
use stress::Scenario;

/// Loads what a job works on, and does its task: a row for each thing that a task may work on. An
/// `Err` says why there is nothing to work on, or that memory is wanting for the work.
pub fn work<R: Threads + Sync, F: Shelf, G: Gate + Sync>(
    rt: &R,
    alloc: Global,
    job: &Job,
    files: &mut F,
    gate: &G,
) -> Result<Outcome, LoadFault>
    requires { IsJob job.now }
    ensures files { F.files files.new ≡ F.files files.old }
    ensures unasked { has_files (source_of job.now.task) ≡ false → files.new ≡ files.old }
    ensures works { IfOk result (Works (F.files files.old) job.now) }
    ensures stopped { IfErr result (Stops (on_shelf F.files F.faults files.old files.new) job.now) }
{
    let plan = Plan {
        workers: job.workers,
        sweeps: job.sweeps,
    };
    let engine = Engine { alloc, plan, gate };
    match source_of(job.task) {
        Source::Files => {
            let net = load_network(alloc, job, files)?;
            Ok(work_on_network(rt, &engine, job, net)?)
        }
        Source::FilesAndScenarios => {
            let (net, scenarios) = load_scenarios(alloc, job, files)?;
            Ok(work_on_scenarios(rt, &engine, job, &net, scenarios.as_slice())?)
        }
        Source::FilesAndJournal => {
            let (net, journal) = load_journal(alloc, job, files)?;
            Ok(judge(alloc, &net, journal.as_slice())?)
        }
        Source::FilesAndBank => {
            let (net, bank) = load_bank(alloc, job, files)?;
            Ok(save(rt, &engine, net, bank)?)
        }
        Source::Generated => {
            let net = load_generated(alloc, job)?;
            Ok(work_on_network(rt, &engine, job, net)?)
        }
    }
}

// Does a task that works on a network alone, of both files or one that was made: a row for each,
// but one for those that clear on one board.
fn work_on_network<R: Threads + Sync, G: Gate + Sync>(
    rt: &R,
    engine: &Engine<'_, G>,
    job: &Job,
    net: Network,
) -> Result<Outcome, Mem>
    requires job { IsJob job.now }
    requires alone { (source_of job.now.task ≡ Source.Files)
        ⊎ (source_of job.now.task ≡ Source.Generated) }
    requires plan { engine.now.plan ≡ plan_of job.now }
    ensures { IfOk result (ComesTo job.now.task job.now (alone net)) }
{
    let alloc = engine.alloc;
    match job.task {
        Task::Check => check(alloc, &net),
        Task::Central => clear_centrally(alloc, &net),
        Task::Convert => Outcome::plain(alloc, print_banks_2(alloc, &net)?),
        Task::Compress => cancel_cycles(alloc, &net),
        Task::Costs => clear_with_costs(alloc, &net, job.keep),
        Task::CostBounds => bound_with_costs(alloc, &net, job.keep),
        Task::Breaking => Outcome::plain(alloc, tell_breaking(rt, alloc, &net)?),
        Task::Impact => Ok(Outcome::of(Text::of_pieces(tell_impact(rt, alloc, &net)?))),
        Task::Rescues => Ok(Outcome::of(Text::of_pieces(tell_rescues(rt, alloc, &net)?))),
        _ => {
            let settled = settle_owned(rt, engine, net, &[])?;
            outcome_of(engine, settled, job)
        }
    }
}

// Does a task that works on scenarios: it tells of each alone, or what they come to in sums.
fn work_on_scenarios<R: Threads + Sync, G: Gate + Sync>(
    rt: &R,
    engine: &Engine<'_, G>,
    job: &Job,
    net: &Network,
    scenarios: &[Scenario],
) -> Result<Outcome, Mem>
    requires task { source_of job.now.task ≡ Source.FilesAndScenarios }
    requires scenarios { All (IsScenarioOf net.now) scenarios.now }
    requires few { length scenarios.now ≤ MAX_SCENARIOS }
    ensures { IfOk result
        (ComesTo job.now.task job.now (record (alone net.now) { scenarios = scenarios.now })) }
{
    let alloc = engine.alloc;
    match job.task {
        Task::Outcomes => {
            let pieces = tell_outcomes(rt, alloc, net, scenarios)?;
            Ok(Outcome::of(Text::of_pieces(pieces)))
        }
        _ => Ok(Outcome::of_blocks(tell_scenarios(rt, engine, net, scenarios)?)),
    }
}
