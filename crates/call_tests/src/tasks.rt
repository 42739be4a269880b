//! Calls of the tasks that the program does not make.
use cascade::Health;
use clr_net::{Mem, Name, Network};
use compress::{compress, with_claims};
use net_samples::{chain, ring};
use std::alloc::Global;
use std::test::Fail;
use stress::{Broken, Losses, Scenario, breaking, breaking_within, joined, shocked};

// The banks, the debts and the units owed in a network of the claims that cancelling leaves.
fn left(alloc: Global, net: &Network) -> Result<(u32, u32, u64), Mem> {
    let made = compress(alloc, net)?;
    let left = with_claims(alloc, net, made.claims.as_slice())?;
    Ok((left.banks(), left.debts(), left.owed()))
}

#[test]
fn a_compressed_network_has_the_claims_that_are_left(rt: HostRuntime) -> Result<(), Fail> {
    let alloc = rt.alloc();
    let (chain, ring) = (chain(alloc)?, ring(alloc)?);
    assert_eq!(rt; left(alloc, &chain)?, (3, 2, 19));
    assert_eq!(rt; left(alloc, &ring)?, (2, 2, 0));
    Ok(())
}

// Whether these cuts break the banks, found at once and in two shares of the cuts.
fn are_broken_by(alloc: Global, net: &Network, wanted: &[Broken]) -> Result<bool, Mem> {
    let all = breaking(alloc, net)?;
    let lower = breaking_within(alloc, net, 0, 334)?;
    let upper = breaking_within(alloc, net, 334, 1_001)?;
    let shares = joined(334, lower, upper.as_slice());
    Ok(*all.as_slice() == *wanted && *shares.as_slice() == *wanted)
}

// The least cuts that break the banks of the chain. 1,001 is above all cuts.
const OF_CHAIN: [Broken; 3] = [
    Broken {
        cut: 0,
        health: Health::Fundamental,
    },
    Broken {
        cut: 0,
        health: Health::Contagion,
    },
    Broken {
        cut: 1_001,
        health: Health::Sound,
    },
];

// Those of the ring, whose only unit a cut of all cash alone takes.
const OF_RING: [Broken; 2] = [
    Broken {
        cut: 1_000,
        health: Health::Contagion,
    },
    Broken {
        cut: 1_000,
        health: Health::Contagion,
    },
];

#[test]
fn cuts_in_two_shares_are_all_cuts(rt: HostRuntime) -> Result<(), Fail> {
    let alloc = rt.alloc();
    let (chain, ring) = (chain(alloc)?, ring(alloc)?);
    assert!(rt; are_broken_by(alloc, &chain, &OF_CHAIN)?);
    assert!(rt; are_broken_by(alloc, &ring, &OF_RING)?);
    Ok(())
}

// The cash that a cut of half leaves in a network.
fn half(alloc: Global, net: &Network) -> Result<u64, Mem> {
    let scenario = Scenario {
        name: Name::of(alloc, b"half").or(Err(Mem))?,
        cut: 500,
        losses: Losses::empty(alloc),
    };
    let left = shocked(alloc, net, &scenario)?;
    Ok(left.cash_total())
}

#[test]
fn a_scenario_leaves_a_network(rt: HostRuntime) -> Result<(), Fail> {
    let chain = chain(rt.alloc())?;
    // Of 7 units 4 are left, and of 1 unit 1.
    assert_eq!(rt; half(rt.alloc(), &chain)?, 5);
    Ok(())
}
