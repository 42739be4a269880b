ghost use Rattle.clr_net.specs.Net.{empty_net};
ghost use Rattle.clr_net.specs.Samples.{chain as chain_net, ring as ring_net};
ghost use Rattle.std.specs.Prelude.{◌≡◌, IfOk, OnOk};

use crate::large::add_woven;
use crate::{add_bank, add_debt};
use clr_net::{Mem, Network};
use std::alloc::Global;

/// A owes B 10, and B owes C 9; A has 7 and B has 1. `Mem` for want of memory alone.
pub fn chain(alloc: Global) -> Result<Network, Mem>
    ensures { IfOk result (λ net. net ≡ chain_net) }
{
    made(alloc, Sample::Chain)
}

/// A and B owe each other 5; A has 1. `Mem` for want of memory alone.
pub fn ring(alloc: Global) -> Result<Network, Mem>
    ensures { IfOk result (λ net. net ≡ ring_net) }
{
    made(alloc, Sample::Ring)
}

/// So many banks, from eight on, that owe round a circle: to the next, to the seventh after it and
/// to the third before it. Their cash, rules, outside claims, classes and claims go by their
/// numbers. `Mem` also where there are too few or too many.
pub fn woven(alloc: Global, banks: u32) -> Result<Network, Mem> {
    made(alloc, Sample::Woven(banks))
}

// Which network.
#[derive(Clone, Copy)]
enum Sample {
    Chain,
    Ring,
    Woven(u32),
}

// The network of a sample. Here alone one is held where a step may fail.
fn made(alloc: Global, sample: Sample) -> Result<Network, Mem>
    ensures chain { sample ≡ Sample.Chain → IfOk result (λ net. net ≡ chain_net) }
    ensures ring { sample ≡ Sample.Ring → IfOk result (λ net. net ≡ ring_net) }
{
    let mut net = Network::empty(alloc);
    fill(alloc, &mut net, sample)?;
    Ok(net)
}

// Adds the banks and the debts of a sample.
fn fill(alloc: Global, net: &mut Network, sample: Sample) -> Result<(), Mem>
    requires { net.old ≡ empty_net }
    ensures chain { sample ≡ Sample.Chain → OnOk result (net.new ≡ chain_net) }
    ensures ring { sample ≡ Sample.Ring → OnOk result (net.new ≡ ring_net) }
{
    match sample {
        Sample::Chain => add_chain(alloc, net),
        Sample::Ring => add_ring(alloc, net),
        Sample::Woven(banks) => add_woven(alloc, net, banks),
    }
}

// Adds the banks and debts of the chain.
fn add_chain(alloc: Global, net: &mut Network) -> Result<(), Mem>
    requires { net.old ≡ empty_net }
    ensures { OnOk result (net.new ≡ chain_net) }
{
    add_bank(alloc, net, b"A", 7)?;
    add_bank(alloc, net, b"B", 1)?;
    add_bank(alloc, net, b"C", 0)?;
    add_debt(net, 0, 1, 10)?;
    add_debt(net, 1, 2, 9)
}

// Adds the banks and debts of the ring.
fn add_ring(alloc: Global, net: &mut Network) -> Result<(), Mem>
    requires { net.old ≡ empty_net }
    ensures { OnOk result (net.new ≡ ring_net) }
{
    add_bank(alloc, net, b"A", 1)?;
    add_bank(alloc, net, b"B", 0)?;
    add_debt(net, 0, 1, 5)?;
    add_debt(net, 1, 0, 5)
}
