//! The runs that tests make: on which network, by how many workers, and by which call.
ghost use Rattle.settle.specs.Drives.{IsPlan};

use crate::boards::new_board;
use crate::nets::{Sample, net_of};
use clear_core::Raise;
use clr_edge::{Gate, OpenGate};
use clr_net::{Mem, Network};
use settle::{Engine, Plan, Settled, drive, offices_of, settle, settle_alone, settle_from};
use std::alloc::Global;
use std::thread::Threads;

// How a run is begun.
#[derive(Clone, Copy)]
pub(crate) enum Begun {
    Settled,
    // Without threads of its own.
    Alone,
    // On a board that was made by hand.
    Driven,
    // From the raises of a run before it.
    Resumed,
}

// A run to be made: how it is begun, on which network, by so many workers, and by so many sweeps in
// each of its rounds.
#[derive(Clone, Copy)]
pub(crate) struct Job {
    pub(crate) begun: Begun,
    pub(crate) sample: Sample,
    pub(crate) workers: u32,
    pub(crate) sweeps: u32,
}

// What a run came to: its rounds, visits and raises, and of the first three raises the stamp, the
// debt and what is paid from then on.
#[derive(Clone, Copy)]
pub(crate) struct Told {
    pub(crate) counts: [u64; 3],
    pub(crate) raises: [(u64, u32, u64); 3],
}

fn told_of(rounds: u64, visits: u64, journal: &[Raise]) -> Told {
    let mut raises = [(0, 0, 0); 3];
    for (place, raise) in journal.iter().enumerate() {
        if let Some(one) = raises.get_mut(place) {
            *one = (raise.stamp, raise.debt.0, raise.to);
        }
    }
    Told {
        counts: [rounds, visits, journal.len() as u64],
        raises,
    }
}

fn told_by(settled: &Settled) -> Told {
    told_of(settled.rounds, settled.visits, settled.sealed.journal())
}

fn settled<R: Threads + Sync, G: Gate + Sync>(
    rt: &R,
    alloc: Global,
    net: &Network,
    plan: Plan,
    gate: &G,
) -> Result<Told, Mem>
    requires { IsPlan plan }
{
    let settled = settle(rt, alloc, net, plan, gate)?;
    Ok(told_by(&settled))
}

fn alone<G: Gate>(alloc: Global, net: &Network, plan: Plan, gate: &G) -> Result<Told, Mem>
    requires { IsPlan plan }
{
    let mut offices = offices_of(alloc, net, plan.workers)?;
    let engine = Engine { alloc, plan, gate };
    let settled = settle_alone(&engine, net.copy(alloc)?, &mut offices)?;
    Ok(told_by(&settled))
}

fn driven<R: Threads + Sync, G: Gate + Sync>(
    rt: &R,
    alloc: Global,
    net: &Network,
    plan: Plan,
    gate: &G,
) -> Result<Told, Mem>
    requires { IsPlan plan }
{
    let (board, mut master) = new_board(alloc, net, plan.workers)?;
    let told = drive(rt, alloc, net, plan, &[], &board, &mut master, gate)?;
    Ok(told_of(told.rounds, told.visits, told.journal.as_slice()))
}

fn resumed<R: Threads + Sync, G: Gate + Sync>(
    rt: &R,
    alloc: Global,
    net: &Network,
    plan: Plan,
    gate: &G,
) -> Result<Told, Mem>
    requires { IsPlan plan }
{
    let before = settle(rt, alloc, net, plan, &OpenGate)?;
    let settled = settle_from(rt, alloc, net, plan, before.sealed.journal(), gate)?;
    Ok(told_by(&settled))
}

fn begun_on<R: Threads + Sync, G: Gate + Sync>(
    rt: &R,
    alloc: Global,
    net: &Network,
    begun: Begun,
    plan: Plan,
    gate: &G,
) -> Result<Told, Mem>
    requires { IsPlan plan }
{
    match begun {
        Begun::Settled => settled(rt, alloc, net, plan, gate),
        Begun::Alone => alone(alloc, net, plan, gate),
        Begun::Driven => driven(rt, alloc, net, plan, gate),
        Begun::Resumed => resumed(rt, alloc, net, plan, gate),
    }
}

// What a run comes to, past this gate.
pub(crate) fn run<R: Threads + Sync, G: Gate + Sync>(
    rt: &R,
    alloc: Global,
    job: Job,
    gate: &G,
) -> Result<Told, Mem> {
    let net = net_of(alloc, job.sample)?;
    let plan = Plan {
        workers: job.workers.clamp(1, 64),
        sweeps: job.sweeps.clamp(1, 1000),
    };
    begun_on(rt, alloc, &net, job.begun, plan, gate)
}
