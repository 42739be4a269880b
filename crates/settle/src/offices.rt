//! The offices of the workers of a run.
ghost use Rattle.clr_net.specs.Limits.{IsNetwork};
ghost use Rattle.settle.specs.Offices.{AreAllOffices, Serves, with_cash_of};
ghost use Rattle.std.specs.Prelude.{◌≡◌, ◌-◌, ◌<◌, ◌≤◌, All, IfOk, Ok, length, map};

use bank_worker::Office;
use clr_net::{MAX_BANKS, Mem, Network};
use std::alloc::Global;
use std::thread::{Threads, map_indices};

/// An office costs a walk over all debts. Walks over fewer are not shared out among threads.
pub(crate) const MANY_DEBTS: u32 = 100_000;

/// The offices of all workers, the last worker's first. `Mem` is want of memory.
pub fn offices_of(alloc: Global, net: &Network, workers: u32) -> Result<Vec<Office>, Mem>
    requires workers { 1 ≤ workers }
    ensures { IfOk result (λ os. AreAllOffices net.now workers os.items) }
{
    let mut offices = Vec::with_capacity(alloc, workers as usize)?;
    for made in 0..workers {
        offices.push(Office::of(alloc, net, workers - 1 - made, workers)?)?;
    }
    Ok(offices)
}

/// The offices of all workers, as [`offices_of`] makes them. Where there are many debts they are
/// made beside one another, by a thread for each. `Mem` is want of memory.
pub fn offices_beside<R: Threads + Sync>(
    rt: &R,
    alloc: Global,
    net: &Network,
    workers: u32,
) -> Result<Vec<Office>, Mem>
    requires workers { 1 ≤ workers }
    ensures { IfOk result (λ os. AreAllOffices net.now workers os.items) }
{
    if net.debts() < MANY_DEBTS {
        return offices_of(alloc, net, workers);
    }
    let one = move |place: usize| -> Result<Office, Mem>
        requires { place < workers }
        ensures { IfOk result (Serves net.entry.now workers (workers - 1 - place)) }
    { office_in(alloc, net, workers, place) };
    let made = map_indices(rt, alloc, workers as usize, &one)?;
    all_made(alloc, made)
}

// The office in this place, the last worker's first.
fn office_in(alloc: Global, net: &Network, workers: u32, place: usize) -> Result<Office, Mem>
    requires { place < workers }
    ensures { IfOk result (Serves net.now workers (workers - 1 - place)) }
{
    Office::of(alloc, net, workers - 1 - place as u32, workers)
}

// These offices, where all were made.
fn all_made(alloc: Global, made: Vec<Result<Office, Mem>>) -> Result<Vec<Office>, Mem>
    ensures { IfOk result (λ os. made.items ≡ map Ok os.items) }
{
    let mut offices = Vec::with_capacity(alloc, made.len())?;
    for one in made {
        let office = one?;
        offices.push(office)?;
    }
    Ok(offices)
}

// Makes the offices of a network those of another, which differs in the cash of its banks alone.
pub(crate) fn move_offices(offices: &mut [Office], net: &Network)
    requires { All (λ o. All (λ d. d.bank < length net.now.banks) o.desks) offices.old }
    ensures network { IsNetwork net.now }
    ensures offices { offices.new ≡ map (with_cash_of net.now) offices.old }
{
    prove!(net.banks() <= MAX_BANKS);
    for office in offices.iter_mut() {
        office.set_cash(net);
    }
}
